// The numbers of stars and of spots, each a type of its own so that one is never taken for the other.

/// A star of the catalogue, by its number from 0.
#[derive(Clone, Copy, PartialEq, Eq, Debug)]
pub struct Star(pub usize);

/// A spot of the picture, by its number from 0.
#[derive(Clone, Copy, PartialEq, Eq, Debug)]
pub struct Spot(pub usize);
