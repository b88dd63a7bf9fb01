// One lane of a value, and what an operation on lanes came to.
// Nothing here fails. A lane keeps its bits as an unsigned number; its width is not kept with it
// and stands beside it in each call.

/// One lane of an integer value of some width `w`: a number below 2^w, or `None` for poison
/// (Language Reference, "Poison Values").
pub type Lane = Option<u64>;

/// What one operation came to: a lane, or undefined behaviour, after which nothing is promised.
#[derive(Clone, Copy, Debug, PartialEq, Eq)]
pub enum Done {
    /// The operation gave this lane, which may be poison.
    Value(Lane),
    /// The operation was undefined behaviour, as a division by zero.
    Undefined,
}
