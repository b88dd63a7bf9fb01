//! `Command`: what the program's words ask for.

use ir_types::Names;

/// What the program is to do.
#[derive(Debug, Drop)]
pub enum Command {
    /// Print the module read.
    Print,
    /// Optimize it.
    Opt,
    /// Run a function of it.
    Run {
        /// The bound on blocks.
        steps: u64,
        /// The call word, and then the words of globals.
        words: Names,
    },
}
