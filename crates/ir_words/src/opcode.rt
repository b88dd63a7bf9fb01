//! The operations by their keywords: those with a result, and those without.
//!
//! The two readers fail where the word is no such keyword.

ghost use Rattle.std.specs.Prelude.{◌≡◌};
ghost use Rattle.ir_words.specs.Words.{Gives};
ghost use Rattle.ir_words.specs.Values as values;

use crate::cursor::same_word;
use ir_draft::Stop;
use vx_num::{BinOp, CastOp, Pred};

/// An operation that has a result (Language Reference, "Instruction Reference").
#[derive(Clone, Copy)]
pub enum Opcode {
    Bin(BinOp),
    Cast(CastOp),
    Icmp,
    Select,
    Extract,
    Insert,
    Shuffle,
    Gep,
    Load,
    Alloca,
    Phi,
}

/// An operation that has none.
#[derive(Clone, Copy)]
pub enum Act {
    Store,
    Ret,
    Br,
    Switch,
    Unreachable,
}

/// The operation with a result that a word names.
pub fn opcode_of(word: &[u8]) -> Result<Opcode, Stop>
    ensures { Gives (λ x. x) result (values.opcode_of word.now) }
{
    found(word).ok_or(Stop::NotALine)
}

/// The same, as a word that may name none.
#[tactic(auto, using(crate::proofs::Tables::none_short))]
fn found(word: &[u8]) -> Option<Opcode>
    ensures { result ≡ values.opcode_of word.now }
{
    match short_opcode(word) {
        Some(code) => Some(code),
        None => longer_opcode(word),
    }
}

/// The operation of a word of two or three bytes.
fn short_opcode(word: &[u8]) -> Option<Opcode>
    ensures { result ≡ values.short_opcode_of word.now }
{
    match word {
        b"add" => Some(Opcode::Bin(BinOp::Add)),
        b"sub" => Some(Opcode::Bin(BinOp::Sub)),
        b"mul" => Some(Opcode::Bin(BinOp::Mul)),
        b"shl" => Some(Opcode::Bin(BinOp::Shl)),
        b"and" => Some(Opcode::Bin(BinOp::And)),
        b"or" => Some(Opcode::Bin(BinOp::Or)),
        b"xor" => Some(Opcode::Bin(BinOp::Xor)),
        b"phi" => Some(Opcode::Phi),
        _ => None,
    }
}

/// The operation of a word of more.
#[tactic(auto, using(crate::proofs::Tables::found_four, crate::proofs::Tables::none_four))]
fn longer_opcode(word: &[u8]) -> Option<Opcode>
    ensures { result ≡ values.longer_opcode_of word.now }
{
    match four_opcode(word) {
        Some(code) => Some(code),
        None => long_opcode(word),
    }
}

/// The operation of a word of four bytes.
fn four_opcode(word: &[u8]) -> Option<Opcode>
    ensures { result ≡ values.four_opcode_of word.now }
{
    match word {
        b"udiv" => Some(Opcode::Bin(BinOp::Udiv)),
        b"sdiv" => Some(Opcode::Bin(BinOp::Sdiv)),
        b"urem" => Some(Opcode::Bin(BinOp::Urem)),
        b"srem" => Some(Opcode::Bin(BinOp::Srem)),
        b"lshr" => Some(Opcode::Bin(BinOp::Lshr)),
        b"ashr" => Some(Opcode::Bin(BinOp::Ashr)),
        b"zext" => Some(Opcode::Cast(CastOp::Zext)),
        b"sext" => Some(Opcode::Cast(CastOp::Sext)),
        b"icmp" => Some(Opcode::Icmp),
        b"load" => Some(Opcode::Load),
        _ => None,
    }
}

/// The operation of a word of five bytes or more.
fn long_opcode(word: &[u8]) -> Option<Opcode>
    ensures { result ≡ values.long_opcode_of word.now }
{
    if same_word(word, b"getelementptr") {
        return Some(Opcode::Gep);
    }
    if same_word(word, b"trunc") {
        return Some(Opcode::Cast(CastOp::Trunc));
    }
    if same_word(word, b"select") {
        return Some(Opcode::Select);
    }
    if same_word(word, b"alloca") {
        return Some(Opcode::Alloca);
    }
    if same_word(word, b"extractelement") {
        return Some(Opcode::Extract);
    }
    if same_word(word, b"insertelement") {
        return Some(Opcode::Insert);
    }
    if same_word(word, b"shufflevector") {
        return Some(Opcode::Shuffle);
    }
    None
}

/// The operation without a result that a word names.
#[tactic(auto, unfolding(crate::specs::Values::act_of))]
pub fn act_of(word: &[u8]) -> Result<Act, Stop>
    ensures { Gives (λ x. x) result (values.act_of word.now) }
{
    match word {
        b"store" => Ok(Act::Store),
        b"ret" => Ok(Act::Ret),
        b"br" => Ok(Act::Br),
        _ => long_act_of(word),
    }
}

/// The same of the words of more than five bytes.
fn long_act_of(word: &[u8]) -> Result<Act, Stop>
    ensures { Gives (λ x. x) result (values.long_act_of word.now) }
{
    if same_word(word, b"switch") {
        return Ok(Act::Switch);
    }
    if same_word(word, b"unreachable") {
        return Ok(Act::Unreachable);
    }
    Err(Stop::NotALine)
}

/// The comparison that a word names.
#[tactic(auto, unfolding(crate::specs::Values::pred_of))]
pub fn pred_of(word: &[u8]) -> Result<Pred, Stop>
    ensures { Gives (λ x. x) result (values.pred_of word.now) }
{
    match word {
        b"eq" => Ok(Pred::Eq),
        b"ne" => Ok(Pred::Ne),
        b"ugt" => Ok(Pred::Ugt),
        b"uge" => Ok(Pred::Uge),
        b"ult" => Ok(Pred::Ult),
        b"ule" => Ok(Pred::Ule),
        b"sgt" => Ok(Pred::Sgt),
        b"sge" => Ok(Pred::Sge),
        b"slt" => Ok(Pred::Slt),
        b"sle" => Ok(Pred::Sle),
        _ => Err(Stop::NotALine),
    }
}
