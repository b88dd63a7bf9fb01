//! `Sweep`: what the items of a draft come to, one after another.
//!
//! `swept` is the entry point. It takes each item out of the draft and is done with it, so that of a large draft less is left as
//! the module grows. A name that a function defines twice ends it; the first name that is unknown and the first line that is ill
//! typed are kept aside, as one that is defined twice later comes first. Want of memory is the other failure.

ghost use Rattle.std.specs.Prelude.{◌≡◌, [], None, Ok, IfOk, OnOk};
ghost use Rattle.ir_draft.specs.declared.draft.DraftItem.TheVariants.{Func as FuncItem};
ghost use Rattle.ir_types_check.specs.Answers.{Gives};
ghost use Rattle.ir_types_check.specs.InOrder as order;
ghost use Rattle.ir_types_check.specs.Resolved as resolved;
ghost use Rattle.ir_types_check.specs.Typed as typed;

use crate::ResolveRefusal;
use crate::building::{Done, Function};
use crate::locals::locals_of;
use crate::scope::Scope;
use crate::tops::Top;
use ir_line::{DraftItem, DraftItems, Head, Kept, Numbered};
use ir_types::{Item, Items, Numbers};
use std::alloc::{AllocError, Global};

/// What the items so far come to.
#[derive(Drop)]
pub(crate) struct Sweep {
    /// The items of the module, or the first name that is unknown.
    pub(crate) linked: Result<Done, ResolveRefusal>,
    /// The first line that is ill typed.
    pub(crate) ill: Option<u32>,
}

impl Sweep {
    /// Of no items.
    fn new(alloc: Global) -> Sweep
        ensures { result ≡ record { linked = Ok (record { items = []; lines = [] }); ill = None } }
    {
        Sweep {
            linked: Ok(Done {
                items: Items::new(alloc),
                lines: Numbers::new(alloc),
            }),
            ill: None,
        }
    }

    /// With an item that is kept as it is.
    fn add_kept(&mut self, item: Item) -> Result<(), AllocError>
        ensures linked { OnOk result (self.new.linked ≡ order.where_known self.old.linked (λ done. Ok (resolved.with_kept done item))) }
        ensures typed { self.new.ill ≡ self.old.ill }
    {
        if let Ok(done) = &mut self.linked {
            done.add_kept(item)?;
        }
        Ok(())
    }

    /// With a function.
    fn add_function(
        &mut self,
        alloc: Global,
        tops: &Scope<'static, Top>,
        func: Function,
    ) -> Result<(), ResolveRefusal>
        ensures own { Gives (λ done. done) result (order.own_names (FuncItem func.entry.line func.entry.head.now func.entry.body.now)) }
        ensures linked { OnOk result (self.new.linked ≡ order.where_known self.old.linked (λ done. resolved.resolved_function tops.now func.entry.line done func.entry.head.now func.entry.body.now)) }
        ensures typed { OnOk result (IfOk self.new.linked (λ _. order.told self.new.ill ≡ order.first_told self.old.ill (typed.function_typed tops.now func.entry.line func.entry.head.now func.entry.body.now))) }
    {
        let own = locals_of(alloc, func.line, func.head, func.body)?;
        let outcome = match &mut self.linked {
            Ok(done) => done.add_function(alloc, tops, &own, func, &mut self.ill),
            Err(_) => return Ok(()),
        };
        match outcome {
            Ok(()) => Ok(()),
            Err(ResolveRefusal::OutOfMemory) => Err(ResolveRefusal::OutOfMemory),
            Err(refusal) => {
                self.linked = Err(refusal);
                Ok(())
            }
        }
    }

    /// With an item.
    fn add_item(
        &mut self,
        alloc: Global,
        tops: &Scope<'static, Top>,
        item: DraftItem,
    ) -> Result<(), ResolveRefusal>
        ensures own { Gives (λ done. done) result (order.own_names item) }
        ensures linked { OnOk result (self.new.linked ≡ order.where_known self.old.linked (λ done. resolved.resolved_item tops.now done item)) }
        ensures typed { OnOk result (IfOk self.new.linked (λ _. order.told self.new.ill ≡ order.first_told self.old.ill (typed.item_typed tops.now item))) }
    {
        match item {
            DraftItem::Kept { line: _line, kept } => {
                let Kept { text, .. } = kept;
                self.add_kept(Item::Kept(text))?
            }
            DraftItem::Opaque {
                line: _line,
                name: _name,
                text,
            } => self.add_kept(Item::Opaque(text))?,
            DraftItem::Func { line, head, body } => {
                let func = Function {
                    line,
                    head: &head,
                    body: body.as_slice(),
                };
                self.add_function(alloc, tops, func)?
            }
        }
        Ok(())
    }
}

/// What the items of a draft come to, where the names of the module are these.
pub(crate) fn swept(
    alloc: Global,
    tops: &Scope<'static, Top>,
    items: DraftItems,
) -> Result<Sweep, ResolveRefusal>
    ensures own { Gives (λ _. tt) result (order.all_own_names items) }
    ensures linked { IfOk result (λ whole. whole.linked ≡ resolved.resolved_items tops.now (record { items = []; lines = [] }) items) }
    ensures typed { IfOk result (λ whole. IfOk whole.linked (λ _. order.told whole.ill ≡ typed.items_typed tops.now items)) }
{
    let mut whole = Sweep::new(alloc);
    let mut left = items.into_vec().into_iter();
    'each: while let Some(item) = left.next() {
        whole.add_item(alloc, tops, item)?;
    }
    Ok(whole)
}
