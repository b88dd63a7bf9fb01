//! `SettingRefusal`: why words are no settings.

use thiserror::Error;

/// Why words did not set costs. The first faulty word is named, by its place from 0.
#[derive(Debug, Clone, Copy, PartialEq, Eq, Error)]
pub enum SettingRefusal {
    /// The word is not `KEY=N`, with one of the twenty keys and a number in decimal digits, at most 1,000,000 and without sign
    /// or leading zero.
    #[error("setting {index}: not a setting")]
    BadSetting {
        /// The word's place from 0.
        index: u32,
    },
    /// The word sets a key that a word before it has set.
    #[error("setting {index}: set twice")]
    TwiceSet {
        /// The word's place from 0.
        index: u32,
    },
}
