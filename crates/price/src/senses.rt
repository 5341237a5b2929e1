// Which way is best.

/// What a claim is about: which run is the best, and which price of an edge counts.
#[derive(Clone, Copy, Debug, PartialEq, Eq)]
pub enum Sense {
    /// The longest time: the dearest run.
    Longest,
}
