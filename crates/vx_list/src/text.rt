//! `Text`: bytes, of which up to 22 lie in place.
//!
//! Contracts see it as the list of its bytes, as a `Seq<u8>`. It is for names and other short texts, which then take no memory and
//! are copied in one piece; a longer text stands after a pointer. A `Text` is no larger than a `Seq`. Nothing here fails but for
//! want of memory.

ghost use Rattle.std.specs.Prelude.{◌≡◌, ◌==◌, ◌≤◌, ◌∷◌, ◌++◌, [], length, slice_get, IfOk, OnOk, OnErr};
ghost use Rattle.std.specs.Option.{option_copied};

use crate::{Equal, Seq, TryClone};
use std::alloc::{AllocError, Global};
use std::marker::Model;

/// How many bytes lie in place.
const IN_PLACE: usize = 22;

/// A list of bytes, of which most are short.
#[derive(Debug, Drop)]
pub struct Text {
    kept: Kept,
    alloc: Global,
}

/// How the bytes are kept.
#[derive(Debug, Drop)]
enum Kept {
    /// The first `len` of these.
    Short { len: u8, bytes: [u8; 22] },
    /// All of these.
    Long(Box<Seq<u8>>),
}

impl Model for Text {
    ghost use Rattle.std.specs.Prelude.{ℕ, List};
    ghost use Rattle.std.specs.Coded.{coded_list, coded_ℕ};

    ghost Value = { List ℕ };

    ghost coded = { coded_list coded_ℕ };

    ghost use Rattle.vx_list.specs.Text.{kept_bytes, IsKept};

    ghost view = { λ t. kept_bytes t.kept };

    ghost invariant = { λ t. IsKept t.kept };
}

ghost use Rattle.vx_list.specs.Text.{kept_bytes, IsKept};

/// At most 22 bytes, in place.
fn short(bytes: &[u8]) -> Kept
    requires { length bytes.now ≤ 22 }
    ensures kept { IsKept result }
    ensures value { kept_bytes result ≡ bytes.now }
{
    let mut places = [0; 22];
    places[..bytes.len()].copy_from_slice(bytes);
    Kept::Short {
        len: bytes.len() as u8,
        bytes: places,
    }
}

/// Bytes with one more, after a pointer.
fn long(alloc: Global, bytes: &[u8], more: u8) -> Result<Kept, AllocError>
    ensures kept { IfOk result IsKept }
    ensures value { IfOk result (λ kept. kept_bytes kept ≡ bytes.now ++ more ∷ []) }
{
    let mut list = Seq::with_capacity(alloc, 2 * IN_PLACE)?;
    list.extend_from_slice(bytes)?;
    list.push(more)?;
    Ok(Kept::Long(Box::new(alloc, list)?))
}

impl Kept {
    /// The bytes in order.
    fn as_slice(&self) -> &[u8]
        requires { IsKept self.now }
        ensures { result.now ≡ kept_bytes self.now }
    {
        match self {
            Kept::Short { len, bytes } => &bytes[..usize::from(*len)],
            Kept::Long(list) => list.as_slice(),
        }
    }

    /// The bytes with one more.
    fn longer(&self, alloc: Global, byte: u8) -> Result<Kept, AllocError>
        requires { IsKept self.now }
        ensures kept { IfOk result IsKept }
        ensures value { IfOk result (λ kept. kept_bytes kept ≡ kept_bytes self.now ++ byte ∷ []) }
    {
        match self {
            Kept::Short { len, bytes } if *len < 22 => {
                let mut more = *bytes;
                more[usize::from(*len)] = byte;
                Ok(Kept::Short {
                    len: *len + 1,
                    bytes: more,
                })
            }
            _ => long(alloc, self.as_slice(), byte),
        }
    }

    /// Puts a byte at the end.
    fn push(&mut self, alloc: Global, byte: u8) -> Result<(), AllocError>
        requires { IsKept self.old }
        ensures kept { IsKept self.new }
        ensures ok { OnOk result (kept_bytes self.new ≡ kept_bytes self.old ++ byte ∷ []) }
        ensures err { OnErr result (kept_bytes self.new ≡ kept_bytes self.old) }
    {
        if let Kept::Long(list) = self {
            return list.push(byte);
        }
        *self = self.longer(alloc, byte)?;
        Ok(())
    }

    /// The same bytes once more.
    fn try_clone(&self, alloc: Global) -> Result<Kept, AllocError>
        requires { IsKept self.now }
        ensures kept { IfOk result IsKept }
        ensures value { IfOk result (λ copy. kept_bytes copy ≡ kept_bytes self.now) }
    {
        match self {
            Kept::Short { len, bytes } => Ok(Kept::Short {
                len: *len,
                bytes: *bytes,
            }),
            Kept::Long(list) => Ok(Kept::Long(Box::new(alloc, list.try_clone(alloc)?)?)),
        }
    }
}

impl Text {
    /// The text of no bytes, which takes no memory.
    pub fn new(alloc: Global) -> Text
        ensures { result ≡ [] }
    {
        Text {
            kept: Kept::Short {
                len: 0,
                bytes: [0; 22],
            },
            alloc,
        }
    }

    /// The text of a slice's bytes; up to 22 take no memory.
    pub fn from_slice(alloc: Global, bytes: &[u8]) -> Result<Text, AllocError>
        ensures { IfOk result (λ text. text ≡ bytes.now) }
    {
        if bytes.len() <= IN_PLACE {
            return Ok(Text {
                kept: short(bytes),
                alloc,
            });
        }
        Text::from_long(alloc, Seq::from_slice(alloc, bytes)?)
    }

    /// The text of a vector's bytes; up to 22 take no memory.
    pub fn from_vec(alloc: Global, bytes: Vec<u8>) -> Result<Text, AllocError>
        ensures { IfOk result (λ text. text ≡ bytes.items) }
    {
        if bytes.len() <= IN_PLACE {
            return Ok(Text {
                kept: short(bytes.as_slice()),
                alloc,
            });
        }
        Text::from_long(alloc, Seq::from_vec(bytes))
    }

    /// The text of a list's bytes, after a pointer.
    fn from_long(alloc: Global, list: Seq<u8>) -> Result<Text, AllocError>
        ensures { IfOk result (λ text. text ≡ list) }
    {
        Ok(Text {
            kept: Kept::Long(Box::new(alloc, list)?),
            alloc,
        })
    }

    /// The bytes in order.
    pub fn as_slice(&self) -> &[u8]
        ensures { result.now ≡ self.now }
    {
        self.kept.as_slice()
    }

    /// The number of bytes.
    pub fn len(&self) -> usize
        ensures { result ≡ length self.now }
    {
        self.as_slice().len()
    }

    /// Whether there is no byte.
    pub fn is_empty(&self) -> bool
        ensures { result ≡ (length self.now == 0) }
    {
        self.as_slice().is_empty()
    }

    /// The byte at a place from 0, if there is one.
    pub fn get(&self, at: usize) -> Option<&u8>
        ensures { option_copied result ≡ slice_get self.now at }
    {
        self.as_slice().get(at)
    }

    /// Puts a byte at the end.
    pub fn push(&mut self, byte: u8) -> Result<(), AllocError>
        ensures ok { OnOk result (self.new ≡ self.old ++ byte ∷ []) }
        ensures err { OnErr result (self.new ≡ self.old) }
    {
        self.kept.push(self.alloc, byte)
    }
}

impl TryClone for Text {
    fn try_clone(&self, alloc: Global) -> Result<Self, AllocError> {
        Ok(Text {
            kept: self.kept.try_clone(alloc)?,
            alloc,
        })
    }
}

impl Equal for Text {
    fn equal(&self, other: &Self) -> bool {
        u8::equal_all(self.as_slice(), other.as_slice())
    }
}
