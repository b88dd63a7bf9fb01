//! `Lit`: a literal of a call word, as it is spelled, without a type.
//!
//! `literal` reads one; `lane_in` is its lane at a width. Each stops where there is none.

ghost use Rattle.std.specs.Prelude.{◌≡◌, ◌*◌, ◌-◌, ◌^◌, ◌<◌, ◌≤◌, nat_le, []};
ghost use Rattle.vx_digits.specs.Optional.{when};
ghost use Rattle.vec_words.specs.Answers.{Gives};
ghost use Rattle.vec_words.specs.Literals as literals;

use crate::pieces::same_text;
use crate::refusal::Stop;
use ir_types::Lits;
use std::alloc::Global;
use vx_digits::{fitting, negative, number};
use vx_num::Lane;

/// A literal.
#[derive(Clone, Copy, Debug)]
pub(crate) enum Lit {
    /// A decimal: whether a minus stands before it, and what follows.
    Number { minus: bool, size: u64 },
    /// `true` or `false`.
    Truth(bool),
    /// `poison`.
    Poison,
}

/// A decimal after a minus.
fn below_zero(digits: &[u8]) -> Option<Lit>
    ensures { result ≡ literals.minus_of digits.now }
{
    let size = number(digits)?;
    if size <= 1 << 63 {
        Some(Lit::Number { minus: true, size })
    } else {
        None
    }
}

/// A decimal from -2^63 to 2^64 - 1.
#[tactic(auto, unfolding(crate::specs::Literals::signed_of))]
fn signed(text: &[u8]) -> Option<Lit>
    ensures { result ≡ literals.signed_of text.now }
{
    match text {
        [] => None,
        [b'-', digits @ ..] => below_zero(digits),
        _ => {
            let size = number(text)?;
            Some(Lit::Number { minus: false, size })
        }
    }
}

/// A literal.
#[tactic(auto, unfolding(crate::specs::Literals::lit_of))]
pub(crate) fn literal(text: &[u8]) -> Option<Lit>
    ensures { result ≡ literals.lit_of text.now }
{
    if same_text(text, b"poison") {
        return Some(Lit::Poison);
    }
    if same_text(text, b"true") {
        return Some(Lit::Truth(true));
    }
    if same_text(text, b"false") {
        return Some(Lit::Truth(false));
    }
    signed(text)
}

/// The lane of `w` bits that a literal is.
#[tactic(auto, unfolding(crate::specs::Literals::lane_in))]
pub(crate) fn lane_in(w: u8, lit: Lit) -> Option<Lane>
    ensures { result ≡ literals.lane_in w lit }
{
    match lit {
        Lit::Poison => Some(None),
        Lit::Truth(yes) => {
            if w == 1 {
                Some(Some(u64::from(yes)))
            } else {
                None
            }
        }
        Lit::Number { minus, size } => {
            let n = if minus {
                negative(w, size)?
            } else {
                fitting(w, size)?
            };
            Some(Some(n))
        }
    }
}

/// The lanes of `w` bits that literals are.
pub(crate) fn lanes_in(alloc: Global, w: u8, lits: &[Lit]) -> Result<Lits, Stop>
    ensures { Gives (λ x. x) result (literals.lanes_after w [] lits.now) }
{
    let mut lanes = Lits::new(alloc);
    let mut rest = lits;
    'each: while let [lit, more @ ..] = rest {
        let lane = lane_in(w, *lit).ok_or(Stop::Unfit)?;
        lanes.push(lane)?;
        rest = more;
    }
    Ok(lanes)
}
