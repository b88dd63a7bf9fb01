//! `Tops`: what the names of a module mean.
//!
//! `names_of` is the entry point. It goes through the items without their bodies, and where a name is defined twice there, once more
//! with them, as one that a function before defines twice comes first. Want of memory is the other failure.

ghost use Rattle.std.specs.Prelude.{◌≡◌, [], Ok, IfOk};
ghost use Rattle.ir_types_check.specs.Answers.{Gives};
ghost use Rattle.ir_types_check.specs.InOrder as order;
ghost use Rattle.ir_types_check.specs.Tops as tops;

use crate::ResolveRefusal;
use crate::locals::locals_of;
use crate::outline::count_of;
use crate::scope::{Scope, copied};
use ir_line::{DraftItem, Head, Kept};
use ir_types::{Bytes, Names, Ty};
use std::alloc::{AllocError, Global};
use vx_list::Seq;

/// What a function gives and takes.
#[derive(Drop)]
pub(crate) struct Signature {
    pub(crate) ret: Ty,
    pub(crate) params: Seq<Ty>,
}

/// What a name of a module means.
#[derive(Drop)]
pub(crate) enum Top {
    /// The global of this number.
    Global(u32),
    /// A function of the draft.
    Function(Signature),
    /// A symbol that is no global, or an opaque function.
    Other,
}

/// The names of a module so far.
#[derive(Drop)]
pub(crate) struct Tops {
    pub(crate) scope: Scope<'static, Top>,
    /// The names of the globals in order of their lines.
    pub(crate) globals: Names,
}

/// What a header gives and takes.
fn signature_of(alloc: Global, head: &Head) -> Result<Signature, AllocError>
    ensures { IfOk result (λ signature. signature ≡ tops.signature_of head.now) }
{
    let mut params = Seq::new(alloc);
    for param in head.params.as_slice() {
        params.push(param.ty)?;
    }
    Ok(Signature {
        ret: head.ret,
        params,
    })
}

impl Tops {
    /// No names.
    fn new(alloc: Global) -> Tops
        ensures { result ≡ record { scope = []; globals = [] } }
    {
        Tops {
            scope: Scope::new(alloc),
            globals: Names::new(alloc),
        }
    }

    /// With a name that is no global.
    #[tactic(auto, unfolding(crate::specs::Tops::with_top))]
    fn add(&mut self, alloc: Global, line: u32, name: &[u8], top: Top) -> Result<(), ResolveRefusal>
        ensures { Gives (λ _. self.new) result (tops.with_top line self.old name.now top) }
    {
        self.scope.define_owned(alloc, line, b'@', name, top)?;
        Ok(())
    }

    /// With a global.
    #[tactic(auto, unfolding(crate::specs::Tops::with_global))]
    fn add_global(&mut self, alloc: Global, line: u32, name: &Bytes) -> Result<(), ResolveRefusal>
        ensures { Gives (λ _. self.new) result (tops.with_global line self.old name.now) }
    {
        let number = count_of(self.globals.len())?;
        self.scope
            .define_owned(alloc, line, b'@', name.as_slice(), Top::Global(number))?;
        self.globals.push(copied(alloc, name.as_slice())?)?;
        Ok(())
    }

    /// With the symbol of a kept line.
    fn add_kept(&mut self, alloc: Global, line: u32, kept: &Kept) -> Result<(), ResolveRefusal>
        ensures { Gives (λ _. self.new) result (tops.with_symbol line self.old kept.now.global kept.now.symbol) }
    {
        match &kept.symbol {
            None => Ok(()),
            Some(name) => {
                if kept.global {
                    self.add_global(alloc, line, name)
                } else {
                    self.add(alloc, line, name.as_slice(), Top::Other)
                }
            }
        }
    }

    /// With the name of an opaque function.
    fn add_opaque(
        &mut self,
        alloc: Global,
        line: u32,
        name: &Option<Bytes>,
    ) -> Result<(), ResolveRefusal>
        ensures { Gives (λ _. self.new) result (tops.with_opaque line self.old name.now) }
    {
        match name {
            None => Ok(()),
            Some(name) => self.add(alloc, line, name.as_slice(), Top::Other),
        }
    }

    /// With a function.
    fn add_function(&mut self, alloc: Global, line: u32, head: &Head) -> Result<(), ResolveRefusal>
        ensures { Gives (λ _. self.new) result (tops.with_top line self.old head.now.name (Top.Function (tops.signature_of head.now))) }
    {
        let signature = signature_of(alloc, head)?;
        self.add(alloc, line, head.name.as_slice(), Top::Function(signature))
    }

    /// With an item, without the names inside it.
    fn add_item(&mut self, alloc: Global, item: &DraftItem) -> Result<(), ResolveRefusal>
        ensures { Gives (λ _. self.new) result (order.with_head self.old item.now) }
    {
        match item {
            DraftItem::Kept { line, kept } => self.add_kept(alloc, *line, kept),
            DraftItem::Opaque {
                line,
                name,
                text: _,
            } => self.add_opaque(alloc, *line, name),
            DraftItem::Func {
                line,
                head,
                body: _,
            } => self.add_function(alloc, *line, head),
        }
    }
}

/// The names of the items, without those inside them.
fn heads_of(alloc: Global, items: &[DraftItem]) -> Result<Tops, ResolveRefusal>
    ensures { Gives (λ tops. tops) result (order.with_heads (record { scope = []; globals = [] }) items.now) }
{
    let mut tops = Tops::new(alloc);
    let mut rest = items;
    'each: while let [item, after @ ..] = rest {
        tops.add_item(alloc, item)?;
        rest = after;
    }
    Ok(tops)
}

/// Nothing, where an item defines no name twice inside.
fn own_names(alloc: Global, item: &DraftItem) -> Result<(), ResolveRefusal>
    ensures { Gives (λ done. done) result (order.own_names item.now) }
{
    if let DraftItem::Func { line, head, body } = item {
        locals_of(alloc, *line, head, body.as_slice())?;
    }
    Ok(())
}

/// Adds the name of an item, and sees that those inside it are defined once.
#[tactic(auto, using(crate::proofs::Heads::item_by_parts, crate::proofs::Heads::item_is))]
fn add_whole(whole: &mut Tops, alloc: Global, item: &DraftItem) -> Result<(), ResolveRefusal>
    ensures { Gives (λ _. whole.new) result (tops.with_item whole.old item.now) }
{
    whole.add_item(alloc, item)?;
    own_names(alloc, item)?;
    Ok(())
}

/// The names of the items, each before those inside it.
fn tops_of(alloc: Global, items: &[DraftItem]) -> Result<Tops, ResolveRefusal>
    ensures { Gives (λ tops. tops) result (tops.tops_of items.now) }
{
    let mut tops = Tops::new(alloc);
    let mut rest = items;
    'each: while let [item, after @ ..] = rest {
        add_whole(&mut tops, alloc, item)?;
        rest = after;
    }
    Ok(tops)
}

/// The names of a module, where no function defines one twice; or the first name that is defined twice.
pub(crate) fn names_of(alloc: Global, items: &[DraftItem]) -> Result<Tops, ResolveRefusal>
    ensures { order.GivesTops result items.now }
{
    match heads_of(alloc, items) {
        Ok(tops) => Ok(tops),
        Err(ResolveRefusal::OutOfMemory) => Err(ResolveRefusal::OutOfMemory),
        Err(_) => tops_of(alloc, items),
    }
}
