//! The classes of bytes that tokens are made of.
//!
//! Each byte has one class, which stands at its place in the table, and each test is one look at it. A byte of 128 or above is a
//! token of its own.

ghost use Rattle.std.specs.Prelude.{◌≡◌};
ghost use Rattle.ir_lex.specs.Bytes as bytes;

use Class::{At, Blank, Control, Digit, Mark, Name, Percent, Quote, Remark, Single};

/// What a byte is where a token may begin.
#[derive(Clone, Copy, Debug)]
enum Class {
    /// A letter, `-`, `$`, `.` or `_`.
    Name,
    /// A decimal digit.
    Digit,
    /// A space or a tab.
    Blank,
    /// `@`.
    At,
    /// `%`.
    Percent,
    /// `!`, `#` or `^`.
    Mark,
    /// Any other byte that may stand in a line.
    Single,
    /// `"`.
    Quote,
    /// `;`.
    Remark,
    /// A byte that may stand nowhere in a line.
    Control,
}

static CLASSES: [Class; 256] = [
    Control, Control, Control, Control, Control, Control, Control, Control, Control, Blank,
    Control, Control, Control, Control, Control, Control, Control, Control, Control, Control,
    Control, Control, Control, Control, Control, Control, Control, Control, Control, Control,
    Control, Control, Blank, Mark, Quote, Mark, Name, Percent, Single, Single, Single, Single,
    Single, Single, Single, Name, Name, Single, Digit, Digit, Digit, Digit, Digit, Digit, Digit,
    Digit, Digit, Digit, Single, Remark, Single, Single, Single, Single, At, Name, Name, Name,
    Name, Name, Name, Name, Name, Name, Name, Name, Name, Name, Name, Name, Name, Name, Name, Name,
    Name, Name, Name, Name, Name, Name, Name, Single, Single, Single, Mark, Name, Single, Name,
    Name, Name, Name, Name, Name, Name, Name, Name, Name, Name, Name, Name, Name, Name, Name, Name,
    Name, Name, Name, Name, Name, Name, Name, Name, Name, Single, Single, Single, Single, Control,
    Single, Single, Single, Single, Single, Single, Single, Single, Single, Single, Single, Single,
    Single, Single, Single, Single, Single, Single, Single, Single, Single, Single, Single, Single,
    Single, Single, Single, Single, Single, Single, Single, Single, Single, Single, Single, Single,
    Single, Single, Single, Single, Single, Single, Single, Single, Single, Single, Single, Single,
    Single, Single, Single, Single, Single, Single, Single, Single, Single, Single, Single, Single,
    Single, Single, Single, Single, Single, Single, Single, Single, Single, Single, Single, Single,
    Single, Single, Single, Single, Single, Single, Single, Single, Single, Single, Single, Single,
    Single, Single, Single, Single, Single, Single, Single, Single, Single, Single, Single, Single,
    Single, Single, Single, Single, Single, Single, Single, Single, Single, Single, Single, Single,
    Single, Single, Single, Single, Single, Single, Single, Single, Single, Single, Single, Single,
    Single, Single, Single, Single, Single, Single, Single, Single,
];

impl Class {
    ghost use Rattle.ir_lex.specs.Classes as classes;

    fn is_name(self) -> bool
        ensures { result ≡ classes.is_name_class self }
    {
        matches!(self, Name)
    }

    fn is_word(self) -> bool
        ensures { result ≡ classes.is_word_class self }
    {
        matches!(self, Name | Digit)
    }

    fn is_digit(self) -> bool
        ensures { result ≡ classes.is_digit_class self }
    {
        matches!(self, Digit)
    }

    fn is_sigil(self) -> bool
        ensures { result ≡ classes.is_sigil_class self }
    {
        matches!(self, At | Percent)
    }

    fn is_mark(self) -> bool
        ensures { result ≡ classes.is_mark_class self }
    {
        matches!(self, Mark)
    }

    fn is_blank(self) -> bool
        ensures { result ≡ classes.is_blank_class self }
    {
        matches!(self, Blank)
    }

    fn is_control(self) -> bool
        ensures { result ≡ classes.is_control_class self }
    {
        matches!(self, Control)
    }

    fn is_notable(self) -> bool
        ensures { result ≡ classes.is_notable_class self }
    {
        matches!(self, Quote | Remark | Control)
    }
}

/// Whether a byte may begin a plain name after its `@` or `%`.
pub(crate) fn begins_name(byte: u8) -> bool
    ensures { result ≡ bytes.begins_name byte }
{
    CLASSES[byte as usize].is_name()
}

/// Whether a byte may stand in a plain name or a run.
pub(crate) fn is_word_byte(byte: u8) -> bool
    ensures { result ≡ bytes.is_word_byte byte }
{
    CLASSES[byte as usize].is_word()
}

/// Whether a byte is a decimal digit.
pub(crate) fn is_digit(byte: u8) -> bool
    ensures { result ≡ bytes.is_digit byte }
{
    CLASSES[byte as usize].is_digit()
}

/// Whether a byte is `@` or `%`.
pub(crate) fn is_sigil(byte: u8) -> bool
    ensures { result ≡ bytes.is_sigil byte }
{
    CLASSES[byte as usize].is_sigil()
}

/// Whether a byte is `!`, `#` or `^`.
pub(crate) fn is_mark(byte: u8) -> bool
    ensures { result ≡ bytes.is_mark byte }
{
    CLASSES[byte as usize].is_mark()
}

/// Whether a byte is a space or a tab.
pub fn is_blank(byte: u8) -> bool
    ensures { result ≡ bytes.is_blank byte }
{
    CLASSES[byte as usize].is_blank()
}

/// Whether a byte may stand nowhere in a line.
pub(crate) fn is_control(byte: u8) -> bool
    ensures { result ≡ bytes.is_control byte }
{
    CLASSES[byte as usize].is_control()
}

/// Whether a byte may be a fault, or may change what part of a line it stands in.
pub(crate) fn is_notable(byte: u8) -> bool
    ensures { result ≡ bytes.is_notable byte }
{
    CLASSES[byte as usize].is_notable()
}
