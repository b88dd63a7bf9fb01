//! `Key`: the twenty keys of a table of costs, their names and places, and the key of an instruction.
//!
//! A key whose name begins with `v` is of the form whose operands or result are vectors. An instruction's type shows which form
//! it is: the result is a vector exactly where an operand is, and a store has the type of the value that it stores. Nothing fails.

ghost use Rattle.std.specs.Prelude.{◌≡◌, ◌<◌, IsTrue, IfSome, IfNone, slice_get, Some};
ghost use Rattle.vx_cost.specs.Keys as keys;
ghost use Rattle.vx_cost.specs.Prices as prices;

use ir_types::{Inst, Op, Ty};
use vx_num::BinOp;

/// What a cost is of.
#[derive(Clone, Copy, Debug)]
pub(crate) enum Key {
    Int,
    Vint,
    Mul,
    Vmul,
    Div,
    Vdiv,
    Cmp,
    Vcmp,
    Cast,
    Vcast,
    Select,
    Vselect,
    Load,
    Vload,
    Store,
    Vstore,
    Addr,
    Insert,
    Extract,
    Shuffle,
}

/// All keys, each in its place.
const KEYS: [Key; 20] = [
    Key::Int,
    Key::Vint,
    Key::Mul,
    Key::Vmul,
    Key::Div,
    Key::Vdiv,
    Key::Cmp,
    Key::Vcmp,
    Key::Cast,
    Key::Vcast,
    Key::Select,
    Key::Vselect,
    Key::Load,
    Key::Vload,
    Key::Store,
    Key::Vstore,
    Key::Addr,
    Key::Insert,
    Key::Extract,
    Key::Shuffle,
];

impl Key {
    /// The place of its cost in a table.
    pub(crate) fn place(self) -> usize
        ensures place { result ≡ keys.place_of self }
        ensures bound { result < 20 }
    {
        self as usize
    }

    /// Its name in a setting.
    fn name(self) -> &'static str
        ensures { result.now ≡ keys.name_of self }
    {
        match self {
            Key::Int => "int",
            Key::Vint => "vint",
            Key::Mul => "mul",
            Key::Vmul => "vmul",
            Key::Div => "div",
            Key::Vdiv => "vdiv",
            Key::Cmp => "cmp",
            Key::Vcmp => "vcmp",
            Key::Cast => "cast",
            Key::Vcast => "vcast",
            Key::Select => "select",
            Key::Vselect => "vselect",
            Key::Load => "load",
            Key::Vload => "vload",
            Key::Store => "store",
            Key::Vstore => "vstore",
            Key::Addr => "addr",
            Key::Insert => "insert",
            Key::Extract => "extract",
            Key::Shuffle => "shuffle",
        }
    }

    /// The key of a name, if it is one's.
    pub(crate) fn named(name: &str) -> Option<Key>
        ensures found { IfSome result (λ key. keys.name_of key ≡ name.now) }
        ensures none { IfNone result ((key : Key) → keys.name_of key ≡ name.now → ⊥) }
    {
        for key in KEYS {
            if key.name() == name {
                return Some(key);
            }
        }
        None
    }

    /// The key of an instruction, if it has a cost.
    pub(crate) fn of(inst: &Inst) -> Option<Key>
        ensures { result ≡ prices.key_of inst.now }
    {
        let vectors = has_lanes(inst.ty);
        match &inst.op {
            Op::Bin { op, .. } => Some(of_operation(*op, vectors)),
            Op::Icmp { .. } => Some(if vectors { Key::Vcmp } else { Key::Cmp }),
            Op::Cast { .. } => Some(if vectors { Key::Vcast } else { Key::Cast }),
            Op::Select => Some(if vectors { Key::Vselect } else { Key::Select }),
            Op::Load { .. } => Some(if vectors { Key::Vload } else { Key::Load }),
            Op::Store { .. } => Some(if vectors { Key::Vstore } else { Key::Store }),
            Op::Gep { .. } => Some(Key::Addr),
            Op::Insert => Some(Key::Insert),
            Op::Extract => Some(Key::Extract),
            Op::Shuffle { .. } => Some(Key::Shuffle),
            _ => None,
        }
    }
}

/// Whether a type is one of vectors.
fn has_lanes(ty: Ty) -> bool
    ensures { result ≡ prices.has_lanes ty }
{
    matches!(ty, Ty::Row { .. })
}

/// The key of a binary operation, on scalars or on vectors.
fn of_operation(op: BinOp, vectors: bool) -> Key
    ensures { result ≡ prices.operation_key vectors op }
{
    match op {
        BinOp::Mul => if vectors { Key::Vmul } else { Key::Mul },
        BinOp::Udiv | BinOp::Sdiv | BinOp::Urem | BinOp::Srem => if vectors {
            Key::Vdiv
        } else {
            Key::Div
        },
        _ => if vectors { Key::Vint } else { Key::Int },
    }
}
