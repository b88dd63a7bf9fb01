//! Laws: what is printed is read again as the same.
//!
//! There is no code that runs. Each law is the contract of a public function with an empty body, over the definitions of
//! `ir_print` and of the readers; a caller that calls it has the law. Nothing here fails.
#![tactic(auto)]

mod again;
mod exact;
mod instructions;
mod outside;
mod readable;
mod spelled;
mod text_lines;

pub use again::{any_texts_are_read_again, renumbered_texts, texts_are_read_again};
pub use exact::{
    given_modules_are_within, read_and_resolved, resolved_as_read, spelled_texts_are_given,
};
pub use instructions::{printed_bodies, printed_braces, printed_instructions, printed_labels};
pub use outside::{
    forms_are_of_lines, headers_again, headers_are_heads, heads_of_lines, kept_by_text,
    kept_lines_again, lines_again, params_are_shown, sound_are_lines,
};
pub use readable::{read_modules_are_numbered, read_modules_are_plain, read_modules_are_printable};
pub use spelled::{accepted_texts_spell, one_spelled_module, spelled_texts_read};
pub use text_lines::texts_are_lines;
