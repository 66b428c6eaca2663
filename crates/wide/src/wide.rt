// A whole number of 128 bits.

/// A whole number of 128 bits in two words: `high` times 2^64, and `low`.
#[derive(Clone, Copy, Debug)]
pub struct Wide {
    pub high: u64,
    pub low: u64,
}
