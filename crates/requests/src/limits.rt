// How much a request may ask for.

/// The most stars that a catalogue has.
pub const MOST_STARS: usize = 400;

/// The most spots that a picture has.
pub const MOST_SPOTS: usize = 16;

/// The largest error.
pub const LARGEST_ERROR: u64 = 1_000_000;

/// The most spots that may be no star.
pub const MOST_NONE: u64 = 4;

/// The fewest stars of a group that is told apart.
pub const SMALLEST_GROUP: u64 = 3;

/// The most stars of a group that is told apart.
pub const LARGEST_GROUP: u64 = 6;
