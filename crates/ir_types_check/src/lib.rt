//! A draft as a module: its names looked up, its types checked.
//!
//! The one entry point is `resolve`. It answers with the module, or refuses by the first line that defines a name twice, the first
//! that uses an unknown one, or the first that is ill typed, in this order; or for want of memory.
//!
//! The draft is gone through twice: its items for the names of the module, and then function by function, with a map of the
//! function's names, for what its lines use and for their types. A name is one look-up in a hash map and the time is near linear.
//! What is found before a cause that comes first is kept aside.
#![tactic(auto)]

ghost use Rattle.ir_types_check.specs.Answers.{Gives};
ghost use Rattle.ir_types_check.specs.Resolved.{resolved_of};

mod building;
mod cases;
mod context;
mod edges;
mod laws;
mod links;
mod locals;
mod outline;
mod phis;
mod refusal;
mod resolved;
mod scope;
mod sweep;
mod tops;
mod typed;
mod types;

use ir_line::Draft;
use ir_types::Module;
pub use laws::resolved_drafts_are_named;
pub use refusal::ResolveRefusal;
pub use resolved::Resolved;
use resolved::big_endian_line;
use std::alloc::Global;
use sweep::{Sweep, swept};
use tops::names_of;

/// The module that a draft is, with the line of each id.
///
/// Refusals, the first of these that holds:
/// - `TwiceDefined`, the first line that defines a name again;
/// - `Unknown`, the first line that uses a name which means nothing there;
/// - `IllTyped`, the first line whose types, targets, cases or incoming blocks do not fit;
/// - `OutOfMemory`, at any time.
///
/// LLVM Language Reference, "Identifiers", "Functions", "phi Instruction" and "call Instruction".
#[tactic(auto, unfolding(crate::specs::Resolved::resolved_of, crate::specs::Resolved::resolved_with, crate::specs::Resolved::module_of))]
pub fn resolve(alloc: Global, draft: Draft) -> Result<Resolved, ResolveRefusal>
    ensures { Gives (λ whole. whole) result (resolved_of draft) }
{
    let Draft { items } = draft;
    let big_endian_line = big_endian_line(items.as_slice());
    let tops = names_of(alloc, items.as_slice())?;
    let Sweep { linked, ill } = swept(alloc, &tops.scope, items)?;
    let done = linked?;
    if let Some(line) = ill {
        return Err(ResolveRefusal::IllTyped { line });
    }
    Ok(Resolved {
        module: Module {
            items: done.items,
            globals: tops.globals,
            big_endian_line,
        },
        lines: done.lines,
    })
}

#[cfg(test)]
mod tests;
