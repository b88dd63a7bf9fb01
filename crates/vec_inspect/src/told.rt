//! The text of an answer, one line or more.
//!
//! `Listing::push_answer` is the entry point; want of memory is its only failure, and may leave a part of the text.

use crate::answer::Answer;
use crate::listing::Listing;
use ir_types::Id;
use std::alloc::AllocError;
use vx_addr::Form;
use vx_deps::{Bundles, Reach};
use vx_digits::push_decimal;

impl Listing<'_> {
    /// Puts a symbol, times its scale, at the end.
    fn push_symbol(&self, out: &mut Vec<u8>, id: Id, scale: u64) -> Result<(), AllocError> {
        out.extend_from_slice(b" + ")?;
        self.push_value(out, id)?;
        out.extend_from_slice(b" * ")?;
        push_decimal(out, scale)
    }

    /// Puts a form at the end: its root, and what is added to it.
    fn push_form(&self, out: &mut Vec<u8>, form: &Form) -> Result<(), AllocError> {
        self.push_pointer(out, &form.root)?;
        if let Some((id, scale)) = form.symbol {
            self.push_symbol(out, id, scale)?;
        }
        if form.constant > 0 {
            out.extend_from_slice(b" + ")?;
        }
        if form.constant < 0 {
            out.extend_from_slice(b" - ")?;
        }
        if form.constant != 0 {
            push_decimal(out, form.constant.unsigned_abs())?;
        }
        out.push(b'\n')?;
        Ok(())
    }

    /// Puts how many instructions there are, the first and the last of them at the end.
    fn push_ends(&self, out: &mut Vec<u8>, ids: &[Id]) -> Result<(), AllocError> {
        push_decimal(out, ids.len() as u64)?;
        if let [first, ..] = ids {
            out.extend_from_slice(b" from ")?;
            self.push_value(out, *first)?;
        }
        if let [.., last] = ids {
            out.extend_from_slice(b" to ")?;
            self.push_value(out, *last)?;
        }
        out.push(b'\n')?;
        Ok(())
    }

    /// Puts the members of a group at the end, with commas between them.
    fn push_group(&self, out: &mut Vec<u8>, group: &[Id]) -> Result<(), AllocError> {
        let mut begun = false;
        for id in group {
            if begun {
                out.push(b',')?;
            }
            self.push_value(out, *id)?;
            begun = true;
        }
        out.push(b'\n')?;
        Ok(())
    }

    /// Puts groups at the end, one a line.
    fn push_groups(&self, out: &mut Vec<u8>, groups: &Bundles) -> Result<(), AllocError> {
        for group in groups.as_slice() {
            self.push_group(out, group.as_slice())?;
        }
        Ok(())
    }

    /// Puts an answer at the end.
    pub(crate) fn push_answer(&self, out: &mut Vec<u8>, answer: &Answer) -> Result<(), AllocError> {
        match answer {
            Answer::Form(form) => self.push_form(out, form),
            Answer::Conflict(true) => out.extend_from_slice(b"conflict\n"),
            Answer::Conflict(false) => out.extend_from_slice(b"no conflict\n"),
            Answer::Reach(Reach::Near(ids)) => self.push_ends(out, ids.as_slice()),
            Answer::Reach(Reach::Far) => out.extend_from_slice(b"far\n"),
            Answer::Order(groups) => self.push_groups(out, groups),
            Answer::NoOrder(cycle) => {
                out.extend_from_slice(b"no order\n")?;
                self.push_groups(out, cycle)
            }
        }
    }
}
