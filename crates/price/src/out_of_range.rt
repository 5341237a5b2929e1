// What can be wrong with the numbers of a price or a tariff.

/// Numbers that make no price record, or no tariff.
#[derive(Clone, Copy, Debug, PartialEq, Eq)]
pub enum OutOfRange {
    /// A part of a price outside -2^52 to 2^52.
    Price,
    /// A weight above 255.
    Weight,
}
