// The reasons for which a request is turned away.
ghost use Rattle.std.specs.Prelude.{◌≡◌};
ghost use Rattle.requests.specs.Refusals.{code};

use sky::{Spot, Star};

/// A lent list of directions; as a number it is the list's place.
#[derive(Clone, Copy, PartialEq, Eq, Debug)]
pub enum LentList {
    Stars,
    Spots,
}

/// Why a request is turned away; of several reasons, the one with the smallest number.
#[derive(Clone, Copy, PartialEq, Eq, Debug)]
pub enum Refusal {
    /// 1: the numbers are not three for each direction of the list.
    NotThrees { list: LentList },
    /// 2: no star, or more than 400.
    StarCount { stars: usize },
    /// 3: more than 16 spots.
    SpotCount { spots: usize },
    /// 4: the room for names has another length than there are spots.
    NamesRoom { length: usize },
    /// 5: the star is no direction.
    BadStar { star: Star },
    /// 6: the spot is no direction.
    BadSpot { spot: Spot },
    /// 7: an error above 1,000,000.
    ErrorTooLarge,
    /// 8: more than 4 spots that may be no star.
    NoneTooLarge,
    /// 9: groups of fewer than 3 stars or of more than 6.
    GroupSize,
    /// 10: the room for two rows is not twice as long as a group.
    RowsRoom { length: usize },
    /// 11: the room for the pair table is shorter than it needs.
    TableRoom { needed: usize },
}

impl Refusal {
    /// The refusal's number.
    pub fn number(self) -> u64
        ensures { result ≡ (code self).0 }
    {
        // The cases carry what they speak of, so no cast gives their numbers.
        match self {
            Refusal::NotThrees { .. } => 1,
            Refusal::StarCount { .. } => 2,
            Refusal::SpotCount { .. } => 3,
            Refusal::NamesRoom { .. } => 4,
            Refusal::BadStar { .. } => 5,
            Refusal::BadSpot { .. } => 6,
            Refusal::ErrorTooLarge => 7,
            Refusal::NoneTooLarge => 8,
            Refusal::GroupSize => 9,
            Refusal::RowsRoom { .. } => 10,
            Refusal::TableRoom { .. } => 11,
        }
    }

    /// Where in the request the reason was found, counted from 0.
    pub fn place(self) -> usize
        ensures { result ≡ (code self).1 }
    {
        match self {
            Refusal::NotThrees { list } => list as usize,
            Refusal::StarCount { stars } => stars,
            Refusal::SpotCount { spots } => spots,
            Refusal::NamesRoom { length } => length,
            Refusal::BadStar { star } => star.0,
            Refusal::BadSpot { spot } => spot.0,
            Refusal::ErrorTooLarge | Refusal::NoneTooLarge | Refusal::GroupSize => 0,
            Refusal::RowsRoom { length } => length,
            Refusal::TableRoom { needed } => needed,
        }
    }
}
