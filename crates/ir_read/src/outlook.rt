//! `Outlook`: what is taken from the whole text before its lines are judged.
//!
//! `note` adds what one line gives. Want of memory is the only failure.

ghost use Rattle.std.specs.Prelude.{◌≡◌, OnOk};
ghost use Rattle.ir_read.specs.Outlook as outlook;

use crate::names::Names;
use ir_line::{Head, Kept, Line};
use ir_types::Bytes;
use std::alloc::{AllocError, Global};

/// What is known of the whole text.
#[derive(Drop)]
pub(crate) struct Outlook {
    /// The names that no operand may be.
    pub(crate) names: Names,
    /// Whether a layout gives pointers another size than 64 bits.
    pub(crate) other_pointers: bool,
}

/// One more name, if there is one.
fn add_some(names: &mut Names, alloc: Global, name: &Option<Bytes>) -> Result<(), AllocError>
    ensures { OnOk result (names.new ≡ outlook.with_some names.old name.now) }
{
    match name {
        Some(name) => names.add(alloc, name.as_slice()),
        None => Ok(()),
    }
}

/// The names of a kept line: what it declares, and a symbol that is no global.
fn add_kept(names: &mut Names, alloc: Global, kept: &Kept) -> Result<(), AllocError>
    ensures { OnOk result (names.new ≡ outlook.with_some (outlook.with_some names.old kept.now.declared) (outlook.indirect kept.now)) }
{
    add_some(names, alloc, &kept.declared)?;
    if !kept.global {
        add_some(names, alloc, &kept.symbol)?;
    }
    Ok(())
}

/// The names of the first line of a function.
fn add_define(
    names: &mut Names,
    alloc: Global,
    name: &Option<Bytes>,
    head: &Option<Head>,
) -> Result<(), AllocError>
    ensures { OnOk result (names.new ≡ outlook.with_some (outlook.with_some names.old name.now) (outlook.headed head.now)) }
{
    add_some(names, alloc, name)?;
    if let Some(head) = head {
        names.add(alloc, head.name.as_slice())?;
    }
    Ok(())
}

impl Outlook {
    /// Nothing is known.
    pub(crate) fn new(alloc: Global) -> Outlook
        ensures { result ≡ outlook.nothing_seen }
    {
        Outlook {
            names: Names::new(alloc),
            other_pointers: false,
        }
    }

    /// Adds what a line of this form gives.
    pub(crate) fn note(&mut self, alloc: Global, form: &Option<Line>) -> Result<(), AllocError>
        ensures { OnOk result (self.new ≡ outlook.with_line self.old form.now) }
    {
        match form {
            Some(Line::Kept(kept)) => {
                self.other_pointers = self.other_pointers || kept.other_pointers;
                add_kept(&mut self.names, alloc, kept)
            }
            Some(Line::Define { name, head }) => add_define(&mut self.names, alloc, name, head),
            _ => Ok(()),
        }
    }
}
