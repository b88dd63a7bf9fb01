//! Laws of changes and of use lists.
//!
//! Each law is the contract of a function that does nothing and that no program calls; a caller that calls it has the law.

ghost use Rattle.std.specs.Prelude.{◌≡◌};
ghost use Rattle.ir_types.specs.declared.module.Module.{Module};
ghost use Rattle.ir_types.specs.Formed.{IsFormed};
ghost use Rattle.ir_types.specs.declared.id.Id.{Id};
ghost use Rattle.ir_types.specs.declared.id.Place.{Place};
ghost use Rattle.ir_types.specs.declared.opd.Opd.{Opd};
ghost use Rattle.std.specs.Prelude.{Some};
ghost use Rattle.vx_view.specs.Addresses.{form, form_in};
ghost use Rattle.vx_view.specs.Answers.{find, found, Standing};
ghost use Rattle.vx_view.specs.Blocks.{block_at, standing_at};
ghost use Rattle.vx_view.specs.Views.{State, StandsFor, after_asking};
ghost use Rattle.vx_view.specs.declared.answer.Answer.{Answer};
ghost use Rattle.vx_view.specs.declared.question.Question.{Question};
ghost use Rattle.vx_view.specs.declared.change.Change.{Change};
ghost use Rattle.vx_view.specs.Changes.{applied, all_applied, Fits, inverse};
ghost use Rattle.vx_view.specs.Uses.{IsExact, lifted};

/// In a formed module a change that fits is undone by its inverse: the module is as it was, ids, names and order.
pub fn changes_are_undone()
    ensures { (m : Module) (c : Change) → IsFormed m → Fits m c → all_applied (inverse m c) (applied c m) ≡ m }
{}

/// The use lists of a formed module as it was read are exact: each slot that holds a value stands once in the list of the value.
pub fn lifted_lists_are_exact()
    ensures { (m : Module) → IsFormed m → IsExact m (lifted m) }
{}

/// What a view stands for after a question it stood for before.
pub fn asking_narrows()
    ensures { (q : Question) (a : Answer) (s : State) (m : Module) → StandsFor (after_asking q a s) m → StandsFor s m }
{}

/// In a formed module the block of a place has of an id what the module answers, and the form of a pointer is by the block of its
/// user's place.
pub fn forms_are_of_blocks()
    ensures block { (m : Module) → IsFormed m → (place : Place) (id : Id) → standing_at m place id ≡ find id (block_at m place) }
    ensures form { (m : Module) (user : Id) (s : Standing) → found m user ≡ Some s → (p : Opd) → form m user p ≡ form_in (block_at m s.place) p }
{}
