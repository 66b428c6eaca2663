// What is asked of the camera and of the ground tool, and whether it is taken.
ghost use Rattle.requests.specs.First.{Answers};
ghost use Rattle.requests.specs.Requests.{name_conditions, apart_conditions};

use crate::checks;
use crate::refusal::Refusal;

/// A request to name the spots of a picture by the stars of a catalogue.
#[derive(Clone, Copy, PartialEq, Eq, Debug)]
pub struct NameRequest<'s, 'p> {
    pub stars: &'s [u32],
    pub spots: &'p [u32],
    /// By how much the number of two spots may differ from that of their stars.
    pub error: u64,
    /// How many spots may be no star.
    pub none: u64,
    /// How long the room for names is.
    pub room: usize,
}

/// A request to tell groups of stars of a catalogue apart.
#[derive(Clone, Copy, PartialEq, Eq, Debug)]
pub struct ApartRequest<'s> {
    pub stars: &'s [u32],
    /// By how much the number of two spots may differ from that of their stars.
    pub error: u64,
    /// How many stars a group has.
    pub size: u64,
    /// How long the room for two rows of stars is.
    pub room: usize,
}

impl NameRequest<'_, '_> {
    /// Whether the request is taken, or else the first reason against it.
    pub fn check(&self) -> Result<(), Refusal>
        ensures { Answers (name_conditions self.now) result }
    {
        let NameRequest {
            stars,
            spots,
            error,
            none,
            room,
        } = *self;
        checks::threes(stars, spots)?;
        checks::star_count(stars)?;
        checks::spot_count(spots)?;
        checks::names_room(spots, room)?;
        checks::sound_stars(stars)?;
        checks::sound_spots(spots)?;
        checks::error_limit(error)?;
        checks::none_limit(none)
    }
}

impl ApartRequest<'_> {
    /// Whether the request is taken, or else the first reason against it.
    pub fn check(&self) -> Result<(), Refusal>
        ensures { Answers (apart_conditions self.now) result }
    {
        let ApartRequest {
            stars,
            error,
            size,
            room,
        } = *self;
        checks::threes(stars, &[])?;
        checks::star_count(stars)?;
        checks::sound_stars(stars)?;
        checks::error_limit(error)?;
        checks::group_size(size)?;
        checks::rows_room(size, room)
    }
}
