// Lane arithmetic: what one lane of an integer instruction of LLVM IR gives, poison and undefined
// behaviour included. Entry points: `bin`, `cmp`, `cast` and `advance`. All are total where widths
// are at most 64 and numbers fit them; none allocates, none fails.
// A lane is an unsigned number below 2^width, or poison; signed readings are two's complement.
// The meaning of each operation is a definition of its own in specs/, once over the width.
#![tactic(auto)]

mod address;
mod binary;
mod compare;
mod convert;
mod flagged;
mod lanes;
mod operations;
mod plain;
mod quotients;
mod shifts;
mod sums;
mod width;

pub use address::advance;
pub use binary::bin;
pub use compare::cmp;
pub use convert::cast;
pub use lanes::{Done, Lane};
pub use operations::{BinOp, CastOp, Flags, Pred};

#[cfg(test)]
mod tests;
