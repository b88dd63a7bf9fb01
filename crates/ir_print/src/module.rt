//! `print`: the text of a module.
//!
//! Want of memory is the only failure.

ghost use Rattle.std.specs.Prelude.{◌≡◌, ◌++◌, IfOk, OnOk, codes};
ghost use Rattle.ir_print.specs.Text as text;

use crate::func::push_func;
use ir_types::{Bytes, Func, Item, Module, OutOfMemory};
use std::alloc::{AllocError, Global};

fn is_function(item: &Item) -> bool
    ensures { result ≡ text.is_function item.now }
{
    match item {
        Item::Kept(_) => false,
        Item::Opaque(_) => true,
        Item::Func(_) => true,
    }
}

fn push_line(out: &mut Vec<u8>, line: &[u8]) -> Result<(), AllocError>
    ensures { OnOk result (out.new.items ≡ out.old.items ++ (line.now ++ codes "\n")) }
{
    out.extend_from_slice(line)?;
    out.extend_from_slice(b"\n")?;
    Ok(())
}

fn push_item(
    alloc: Global,
    out: &mut Vec<u8>,
    globals: &[Bytes],
    item: &Item,
) -> Result<(), AllocError>
    ensures { OnOk result (out.new.items ≡ out.old.items ++ text.item_text globals.now item.now) }
{
    match item {
        Item::Kept(line) => push_line(out, line.as_slice()),
        Item::Opaque(lines) => push_line(out, lines.as_slice()),
        Item::Func(func) => push_func(alloc, out, globals, func),
    }
}

/// The empty line between two items of which one is a function.
fn push_gap(out: &mut Vec<u8>, before: bool, after: bool) -> Result<(), AllocError>
    ensures { OnOk result (out.new.items ≡ out.old.items ++ text.gap_text before after) }
{
    if before || after {
        out.extend_from_slice(b"\n")?;
    }
    Ok(())
}

/// The items after one that is a function or not.
fn push_more_items(
    alloc: Global,
    out: &mut Vec<u8>,
    globals: &[Bytes],
    after_function: bool,
    items: &[Item],
) -> Result<(), AllocError>
    ensures { OnOk result (out.new.items ≡ out.old.items ++ text.more_items globals.now after_function items.now) }
{
    let mut before = after_function;
    for item in items {
        let here = is_function(item);
        push_gap(out, before, here)?;
        push_item(alloc, out, globals, item)?;
        before = here;
    }
    Ok(())
}

fn push_items(
    alloc: Global,
    out: &mut Vec<u8>,
    globals: &[Bytes],
    items: &[Item],
) -> Result<(), AllocError>
    ensures { OnOk result (out.new.items ≡ out.old.items ++ text.items_text globals.now items.now) }
{
    match items {
        [] => Ok(()),
        [first, rest @ ..] => {
            push_item(alloc, out, globals, first)?;
            push_more_items(alloc, out, globals, is_function(first), rest)?;
            Ok(())
        }
    }
}

/// A guess at the length of a text, for its first room: that of short names and numbers.
fn room_for(items: &[Item]) -> usize {
    let mut room = 0usize;
    for item in items {
        let more = match item {
            Item::Kept(text) => text.len(),
            Item::Opaque(text) => text.len(),
            Item::Func(func) => room_of(func),
        };
        room = room.saturating_add(more).saturating_add(2);
    }
    room
}

/// The same of a function.
fn room_of(func: &Func) -> usize {
    let mut room = 64usize;
    for block in func.blocks.as_slice() {
        room = room.saturating_add(block.insts.len().saturating_mul(40).saturating_add(16));
    }
    room
}

/// The text of a module, in time near linear in its length. Lines end with a line feed; a module of no items has no text.
pub fn print(alloc: Global, m: &Module) -> Result<Vec<u8>, OutOfMemory>
    ensures { IfOk result (λ written. written.items ≡ text.text_of m.now) }
{
    let mut out = Vec::with_capacity(alloc, room_for(m.items.as_slice()))?;
    push_items(alloc, &mut out, m.globals.as_slice(), m.items.as_slice())?;
    Ok(out)
}
