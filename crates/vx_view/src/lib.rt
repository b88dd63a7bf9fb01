//! Questions about a module, their answers, and changes of it: what the vectorizer asks and what it may do.
//!
//! These are plain data, which contracts see as records and enums; copying fails for want of memory alone. What a question's
//! answer is, where addresses lead, which instructions must keep their order, and what a change makes of a module stand as
//! definitions in `specs/`: `Answers`, `Addresses`, `Conflicts`, `Changes`, `Uses`, `UsesAfter`. The traits `View` and `Sand` are
//! what everything above asks and changes; `Views` has what they hold. `PlainView` is a view of any module, which scans it.
#![tactic(auto)]

mod answer;
mod change;
mod laws;
mod plain;
mod question;
mod read;
mod refusal;
mod scan;
mod users;
mod view;

pub use answer::Answer;
pub use change::{Change, Changes};
pub use laws::{asking_narrows, changes_are_undone, forms_are_of_blocks, lifted_lists_are_exact};
pub use plain::PlainView;
pub use question::Question;
pub use read::{Read, Reads};
pub use refusal::ApplyRefusal;
pub use view::{Mark, Sand, View};
