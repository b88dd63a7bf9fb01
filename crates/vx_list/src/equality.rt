//! `Equal`: the test that two values are the same.
//!
//! It takes no memory and cannot fail. A derived `==` on a list would be the elements' own test, which need not be equality;
//! the answer here is equality of values. Lists are compared by `equal_all` of their items' type.

ghost use Rattle.std.specs.Prelude.{◌≡◌, ◌↔◌, IsTrue};

/// A type whose values can be compared.
pub trait Equal {
    /// Whether both are the same value.
    fn equal(&self, other: &Self) -> bool
        ensures { IsTrue result ↔ (self.now ≡ other.now) };

    /// Whether both slices have the same values in the same order.
    fn equal_all(left: &[Self], right: &[Self]) -> bool
        ensures { IsTrue result ↔ (left.now ≡ right.now) }
    {
        if left.len() != right.len() {
            return false;
        }
        for i in 0..left.len() {
            if !left[i].equal(&right[i]) {
                return false;
            }
        }
        true
    }
}

impl Equal for bool {
    fn equal(&self, other: &Self) -> bool {
        *self == *other
    }
}

impl Equal for u8 {
    fn equal(&self, other: &Self) -> bool {
        *self == *other
    }

    fn equal_all(left: &[u8], right: &[u8]) -> bool {
        left == right
    }
}

impl Equal for u32 {
    fn equal(&self, other: &Self) -> bool {
        *self == *other
    }

    fn equal_all(left: &[u32], right: &[u32]) -> bool {
        left == right
    }
}

impl Equal for u64 {
    fn equal(&self, other: &Self) -> bool {
        *self == *other
    }

    fn equal_all(left: &[u64], right: &[u64]) -> bool {
        left == right
    }
}

impl<T: Equal> Equal for Option<T> {
    fn equal(&self, other: &Self) -> bool {
        match (self, other) {
            (Some(left), Some(right)) => left.equal(right),
            (None, None) => true,
            _ => false,
        }
    }
}
