//! `Shown`: what is shown of a value or a block.
//!
//! It points to the written name, or has the number, which is written out only where it is shown. Its value is the text. Want of
//! memory is the only failure.

ghost use Rattle.std.specs.Prelude.{◌≡◌, ◌++◌, OnOk};
ghost use Rattle.std.specs.Fmt.{decimal};

use std::alloc::AllocError;
use std::marker::Model;
use vx_digits::push_decimal;

/// How a value or a block is shown.
#[derive(Drop)]
pub enum Form<'a> {
    /// By its written name.
    Written(&'a [u8]),
    /// By its number.
    Number(u64),
}

/// What is shown of a value or a block, without the `%`.
#[derive(Drop)]
pub struct Shown<'a> {
    form: Form<'a>,
}

impl<'a> Model for Shown<'a> {
    ghost use Rattle.std.specs.Prelude.{List, ℕ};
    ghost use Rattle.ir_print.specs.Shown.{form_text};

    ghost Value = { List ℕ };

    ghost view = { λ s. form_text s.form };
}

impl<'a> Shown<'a> {
    /// A written name.
    pub(crate) fn written(name: &'a [u8]) -> Shown<'a>
        ensures { result ≡ name.now }
    {
        Shown {
            form: Form::Written(name),
        }
    }

    /// A number.
    pub(crate) fn number(n: u64) -> Shown<'a>
        ensures { result ≡ decimal n }
    {
        Shown {
            form: Form::Number(n),
        }
    }

    /// Puts it after what is written already.
    pub(crate) fn push_to(&self, out: &mut Vec<u8>) -> Result<(), AllocError>
        ensures { OnOk result (out.new.items ≡ out.old.items ++ self.now) }
    {
        match &self.form {
            Form::Written(name) => out.extend_from_slice(name)?,
            Form::Number(n) => push_decimal(out, *n)?,
        }
        Ok(())
    }
}
