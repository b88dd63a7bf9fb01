//! `Row`: a call of `sandvec` with what it must answer.
//!
//! This is plain data; nothing here fails.

/// A row.
#[derive(Drop)]
pub struct Row {
    /// The line of its file that names it, from 1.
    pub line: u32,
    pub name: Vec<u8>,
    /// The words of the call, without the program's own name.
    pub words: Vec<String>,
    /// What stands on standard input.
    pub input: Vec<u8>,
    /// The exit status that is wanted.
    pub status: u8,
    /// What standard output must take.
    pub out: Vec<u8>,
    /// What standard error must take.
    pub err: Vec<u8>,
}
