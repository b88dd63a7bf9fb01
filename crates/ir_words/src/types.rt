//! Types at the front of the words.
//!
//! Each reader stops where no such type stands there.

ghost use Rattle.std.specs.Prelude.{◌≡◌};
ghost use Rattle.vx_digits.specs.Numbers as numbers;
ghost use Rattle.vx_digits.specs.Optional.{when};
ghost use Rattle.ir_words.specs.Cursors.{left};
ghost use Rattle.ir_words.specs.Words.{Gives, one};
ghost use Rattle.ir_types.specs.declared.ty.Ty.TheVariants.{Row};
ghost use Rattle.ir_words.specs.Values as values;
ghost use Rattle.ir_words.specs.Reading as reading;

use crate::cursor::Cursor;
use crate::kinds::{Kind, fits};
use crate::values::{number_of, width_of};
use ir_draft::Stop;
use ir_types::{Elem, Ty};

/// The bits of an integer type.
pub fn width<'a>(at: Cursor<'a>) -> Result<(u8, Cursor<'a>), Stop>
    ensures { Gives (λ x. (x.0, left x.1)) result (one values.width_of (left at.entry)) }
{
    let (word, rest) = at.next()?;
    Ok((width_of(word)?, rest))
}

/// A number.
fn number<'a>(at: Cursor<'a>) -> Result<(u64, Cursor<'a>), Stop>
    ensures { Gives (λ x. (x.0, left x.1)) result (one numbers.number_of (left at.entry)) }
{
    let (word, rest) = at.next()?;
    Ok((number_of(word)?, rest))
}

/// The vector of the profile with so many lanes of so many bits.
pub fn row_of(n: u64, w: u8) -> Result<Ty, Stop>
    ensures { Gives (λ x. x) result (when (reading.is_row n w) (Row n w)) }
{
    if n == 2 || n == 4 || n == 8 || n == 16 {
        if u32::from(w) * n as u32 <= 512 {
            return Ok(Ty::Row { n: n as u8, w });
        }
    }
    Err(Stop::NotALine)
}

/// A vector type after its `<`.
#[tactic(auto, unfolding(crate::specs::Reading::row_at))]
fn row<'a>(at: Cursor<'a>) -> Result<(Ty, Cursor<'a>), Stop>
    ensures { Gives (λ x. (x.0, left x.1)) result (reading.row_at (left at.entry)) }
{
    let (n, rest) = number(at)?;
    let rest = rest.expect(b"x")?;
    let (w, rest) = width(rest)?;
    let rest = rest.expect(b">")?;
    Ok((row_of(n, w)?, rest))
}

/// An integer type.
fn integer<'a>(at: Cursor<'a>) -> Result<(Ty, Cursor<'a>), Stop>
    ensures { Gives (λ x. (x.0, left x.1)) result (reading.int_at (left at.entry)) }
{
    let (w, rest) = width(at)?;
    Ok((Ty::Int(w), rest))
}

/// A type.
#[tactic(auto, unfolding(crate::specs::Reading::ty_at))]
pub fn ty<'a>(at: Cursor<'a>) -> Result<(Ty, Cursor<'a>), Stop>
    ensures { Gives (λ x. (x.0, left x.1)) result (reading.ty_at (left at.entry)) }
{
    if at.begins(b"ptr") {
        return Ok((Ty::Ptr, at.after_first()));
    }
    if at.begins(b"<") {
        return row(at.after_first());
    }
    integer(at)
}

/// A type of a kind.
#[tactic(auto, unfolding(crate::specs::Reading::kind_at))]
pub fn kind<'a>(kind: Kind, at: Cursor<'a>) -> Result<(Ty, Cursor<'a>), Stop>
    ensures { Gives (λ x. (x.0, left x.1)) result (reading.kind_at kind (left at.entry)) }
{
    let (ty, rest) = ty(at)?;
    if fits(kind, ty) {
        Ok((ty, rest))
    } else {
        Err(Stop::NotALine)
    }
}

/// The length of an array.
#[tactic(auto, unfolding(crate::specs::Reading::length_of))]
fn length_of(word: &[u8]) -> Result<u64, Stop>
    ensures { Gives (λ x. x) result (reading.length_of word.now) }
{
    let n = number_of(word)?;
    if n <= 1 << 32 {
        Ok(n)
    } else {
        Err(Stop::NotALine)
    }
}

/// The bits of an array's element.
#[tactic(auto, unfolding(crate::specs::Reading::item_of))]
fn item_of(word: &[u8]) -> Result<u8, Stop>
    ensures { Gives (λ x. x) result (reading.item_of word.now) }
{
    let w = width_of(word)?;
    if w != 1 { Ok(w) } else { Err(Stop::NotALine) }
}

/// The length of an array.
fn array_length<'a>(at: Cursor<'a>) -> Result<(u64, Cursor<'a>), Stop>
    ensures { Gives (λ x. (x.0, left x.1)) result (one reading.length_of (left at.entry)) }
{
    let (word, rest) = at.next()?;
    Ok((length_of(word)?, rest))
}

/// The bits of an array's element.
fn item<'a>(at: Cursor<'a>) -> Result<(u8, Cursor<'a>), Stop>
    ensures { Gives (λ x. (x.0, left x.1)) result (one reading.item_of (left at.entry)) }
{
    let (word, rest) = at.next()?;
    Ok((item_of(word)?, rest))
}

/// An array type after its `[`.
#[tactic(auto, unfolding(crate::specs::Reading::array_at))]
fn array<'a>(at: Cursor<'a>) -> Result<(Elem, Cursor<'a>), Stop>
    ensures { Gives (λ x. (x.0, left x.1)) result (reading.array_at (left at.entry)) }
{
    let (n, rest) = array_length(at)?;
    let rest = rest.expect(b"x")?;
    let (w, rest) = item(rest)?;
    let rest = rest.expect(b"]")?;
    Ok((Elem::Array { n, w }, rest))
}

/// One value of a kind, or an array.
#[tactic(auto, unfolding(crate::specs::Reading::elem_at))]
pub fn elem<'a>(one: Kind, at: Cursor<'a>) -> Result<(Elem, Cursor<'a>), Stop>
    ensures { Gives (λ x. (x.0, left x.1)) result (reading.elem_at one (left at.entry)) }
{
    if at.begins(b"[") {
        return array(at.after_first());
    }
    let (ty, rest) = kind(one, at)?;
    Ok((Elem::One(ty), rest))
}
