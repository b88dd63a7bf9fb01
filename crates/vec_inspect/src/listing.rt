//! `Listing`: the parameters and instructions of a module in order of the text, so that words name them and answers show them.
//!
//! A value with a written name is `%x`, or `@f:%x` where several functions have that name; any parameter or instruction is `#k`, where
//! `k` is its place in the listing, from 0. Only a module that was read is listed: there the place is the number of the id.

use crate::refusal::Refusal;
use ir_types::{Block, Bytes, Func, Id, Inst, Item, Module, Opd, Place};
use std::alloc::{AllocError, Global};
use vx_digits::{number, push_decimal};
use vx_list::Equal;

/// A parameter or an instruction.
#[derive(Clone, Copy)]
pub(crate) struct Line<'a> {
    pub(crate) id: Id,
    /// The written name.
    name: Option<&'a Bytes>,
    /// The name of its function.
    func: &'a Bytes,
    pub(crate) place: Place,
    /// None of a parameter.
    pub(crate) inst: Option<&'a Inst>,
    /// Whether it is a pointer.
    pub(crate) is_pointer: bool,
}

/// The values of a module, and its globals.
#[derive(Drop)]
pub(crate) struct Listing<'a> {
    lines: Vec<Line<'a>>,
    globals: &'a [Bytes],
}

/// Puts the parameters of a function at the end.
fn push_params<'a>(
    lines: &mut Vec<Line<'a>>,
    func: &'a Func,
    place: Place,
) -> Result<(), AllocError> {
    for param in func.params.as_slice() {
        lines.push(Line {
            id: param.id,
            name: param.name.as_ref(),
            func: &func.name,
            place,
            inst: None,
            is_pointer: param.ty.same(ir_types::Ty::Ptr),
        })?;
    }
    Ok(())
}

/// Puts the instructions of a block at the end.
fn push_block<'a>(
    lines: &mut Vec<Line<'a>>,
    func: &'a Func,
    block: &'a Block,
    place: Place,
) -> Result<(), AllocError> {
    for inst in block.insts.as_slice() {
        lines.push(Line {
            id: inst.id,
            name: inst.name.as_ref(),
            func: &func.name,
            place,
            inst: Some(inst),
            is_pointer: inst.ty.same(ir_types::Ty::Ptr),
        })?;
    }
    Ok(())
}

/// Puts the parameters and instructions of a function at the end.
fn push_func<'a>(lines: &mut Vec<Line<'a>>, func: &'a Func, number: u32) -> Result<(), AllocError> {
    push_params(
        lines,
        func,
        Place {
            func: number,
            block: 0,
        },
    )?;
    let mut at = 0u32;
    for block in func.blocks.as_slice() {
        push_block(
            lines,
            func,
            block,
            Place {
                func: number,
                block: at,
            },
        )?;
        at = at.saturating_add(1);
    }
    Ok(())
}

/// The function and the name that a word says, where it says a written name.
fn parts(word: &str) -> Option<(Option<&str>, &str)> {
    if let Some(name) = word.strip_prefix('%') {
        return Some((None, name));
    }
    let (func, value) = word.strip_prefix('@')?.split_once(':')?;
    let name = value.strip_prefix('%')?;
    Some((Some(func), name))
}

impl Line<'_> {
    /// Whether it has this name, in this function where one is said.
    fn is_named(&self, func: Option<&str>, name: &str) -> bool {
        let here = match func {
            Some(func) => self.func.as_slice() == func.as_bytes(),
            None => true,
        };
        match self.name {
            Some(written) => here && written.as_slice() == name.as_bytes(),
            None => false,
        }
    }
}

impl<'a> Listing<'a> {
    /// The listing of a module.
    pub(crate) fn of(alloc: Global, module: &'a Module) -> Result<Listing<'a>, AllocError> {
        let mut lines = Vec::new(alloc);
        let mut number = 0u32;
        for item in module.items.as_slice() {
            if let Item::Func(func) = item {
                push_func(&mut lines, func, number)?;
                number = number.saturating_add(1);
            }
        }
        Ok(Listing {
            lines,
            globals: module.globals.as_slice(),
        })
    }

    /// The line of this name, or that there is none, or several.
    fn named(
        &self,
        alloc: Global,
        word: &str,
        func: Option<&str>,
        name: &str,
    ) -> Result<Line<'a>, Refusal> {
        let mut found = None;
        for line in self.lines.as_slice() {
            if line.is_named(func, name) {
                if found.is_some() {
                    return Err(Refusal::Shared {
                        word: String::from_str(alloc, word)?,
                    });
                }
                found = Some(*line);
            }
        }
        match found {
            Some(line) => Ok(line),
            None => Err(Refusal::Unknown {
                word: String::from_str(alloc, word)?,
            }),
        }
    }

    /// The line of this number.
    fn numbered(&self, digits: &str) -> Option<Line<'a>> {
        let at = usize::try_from(number(digits.as_bytes())?).ok()?;
        match self.lines.get(at) {
            Some(line) => Some(*line),
            None => None,
        }
    }

    /// The parameter or instruction that a word names.
    pub(crate) fn value(&self, alloc: Global, word: &str) -> Result<Line<'a>, Refusal> {
        if let Some(digits) = word.strip_prefix('#') {
            if let Some(line) = self.numbered(digits) {
                return Ok(line);
            }
        }
        if let Some((func, name)) = parts(word) {
            return self.named(alloc, word, func, name);
        }
        Err(Refusal::Unknown {
            word: String::from_str(alloc, word)?,
        })
    }

    /// The global that a word names.
    pub(crate) fn global(&self, word: &str) -> Option<u32> {
        let name = word.strip_prefix('@')?;
        let mut number = 0u32;
        for global in self.globals {
            if global.as_slice() == name.as_bytes() {
                return Some(number);
            }
            number = number.saturating_add(1);
        }
        None
    }

    /// Puts what is shown of a value at the end.
    pub(crate) fn push_value(&self, out: &mut Vec<u8>, id: Id) -> Result<(), AllocError> {
        if let Some(line) = self.lines.get(id.k as usize) {
            if let Some(name) = line.name {
                if line.id.equal(&id) {
                    out.push(b'%')?;
                    return out.extend_from_slice(name.as_slice());
                }
            }
        }
        out.push(b'#')?;
        push_decimal(out, u64::from(id.k))
    }

    /// What is shown of a value.
    pub(crate) fn shown(&self, alloc: Global, id: Id) -> Result<String, AllocError> {
        let mut out = Vec::new(alloc);
        self.push_value(&mut out, id)?;
        match String::from_utf8(out) {
            Ok(text) => Ok(text),
            Err(_) => Ok(String::new(alloc)),
        }
    }

    /// Puts what is shown of a pointer at the end.
    pub(crate) fn push_pointer(&self, out: &mut Vec<u8>, pointer: &Opd) -> Result<(), AllocError> {
        match pointer {
            Opd::Val(id) => self.push_value(out, *id),
            Opd::Lit(_) => out.extend_from_slice(b"poison"),
            Opd::Sym(number) => {
                out.push(b'@')?;
                match self.globals.get(*number as usize) {
                    Some(name) => out.extend_from_slice(name.as_slice()),
                    None => push_decimal(out, u64::from(*number)),
                }
            }
        }
    }
}
