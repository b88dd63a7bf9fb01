// What flags do to a result: a set flag makes poison of one whose fact does not hold.
// Private helpers of the operations; nothing here fails.

ghost use Rattle.std.specs.Prelude.{◌≡◌};
ghost use Rattle.vx_num.specs.Flagged.{keeps, no_wrap, exactly, apart};

use crate::lanes::Lane;
use crate::operations::Flags;

/// Whether a flag is clear or its fact holds.
pub fn kept(flag: bool, fact: bool) -> bool
    ensures { result ≡ keeps flag fact }
{
    !flag || fact
}

/// The number, or poison by `nuw` or `nsw`.
pub fn unwrapped(f: Flags, unsigned: bool, signed: bool, n: u64) -> Lane
    ensures { result ≡ no_wrap f unsigned signed n }
{
    if kept(f.nuw, unsigned) && kept(f.nsw, signed) {
        Some(n)
    } else {
        None
    }
}

/// The number, or poison by `exact`.
pub fn exact(f: Flags, fact: bool, n: u64) -> Lane
    ensures { result ≡ exactly f fact n }
{
    if kept(f.exact, fact) { Some(n) } else { None }
}

/// The number, or poison by `disjoint`.
pub fn disjoint(f: Flags, fact: bool, n: u64) -> Lane
    ensures { result ≡ apart f fact n }
{
    if kept(f.disjoint, fact) {
        Some(n)
    } else {
        None
    }
}
