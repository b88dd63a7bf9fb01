//! Laws of words.
//!
//! Each law is the contract of a function that does nothing and that no program calls.

ghost use Rattle.std.specs.Prelude.{◌≡◌, ℕ, List, Ok, Err};
ghost use Rattle.ir_types.specs.declared.module.Module.{Module};
ghost use Rattle.vec_words.specs.declared.starts.Start.{Start};
ghost use Rattle.vec_words.specs.Commands.{command_of, IsPlace};
ghost use Rattle.vec_words.specs.Starts.{start_of, IsFit};

/// The place of a faulty word is the least such that no words that hold begin with the words up to it.
pub fn place_rule()
    ensures { (words : List (List ℕ)) → (k : ℕ) → command_of words ≡ Err k → IsPlace words k }
{}

/// What words start fits: the function is there, its arguments and its memory fit it.
pub fn starts_fit()
    ensures { (m : Module) → (words : List (List ℕ)) → (s : Start) → start_of m words ≡ Ok s → IsFit m s }
{}
