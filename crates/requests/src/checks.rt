// One check for each condition under which a request is turned away.
ghost use Rattle.std.specs.Prelude.{◌≡◌, if◌then◌else◌, Ok, Err};
ghost use Rattle.requests.specs.First.{Checks};
ghost use Rattle.requests.specs.Conditions.{FirstUnsound, not_threes, star_count, spot_count, names_room, bad_star, bad_spot, error_too_large, none_too_large, group_size, rows_room, table_room};

use crate::limits::*;
use crate::refusal::LentList::{Spots, Stars};
use crate::refusal::Refusal;
use sky::lent::{count, direction_at};
use sky::{Spot, Star};

/// Turns a request away where a condition applies.
fn refuse_if(applies: bool, refusal: Refusal) -> Result<(), Refusal>
    ensures { result ≡ (if applies then Err refusal else Ok tt) }
{
    if applies { Err(refusal) } else { Ok(()) }
}

/// 1: three numbers for each star, and three for each spot.
pub fn threes(stars: &[u32], spots: &[u32]) -> Result<(), Refusal>
    ensures { Checks (not_threes stars.now spots.now) result }
{
    refuse_if(stars.len() % 3 != 0, Refusal::NotThrees { list: Stars })?;
    refuse_if(spots.len() % 3 != 0, Refusal::NotThrees { list: Spots })
}

/// 2: 1 to 400 stars.
pub fn star_count(stars: &[u32]) -> Result<(), Refusal>
    ensures { Checks (star_count stars.now) result }
{
    let stars = count(stars);
    refuse_if(
        !(1..=MOST_STARS).contains(&stars),
        Refusal::StarCount { stars },
    )
}

/// 3: at most 16 spots.
pub fn spot_count(spots: &[u32]) -> Result<(), Refusal>
    ensures { Checks (spot_count spots.now) result }
{
    let spots = count(spots);
    refuse_if(spots > MOST_SPOTS, Refusal::SpotCount { spots })
}

/// 4: a room for as many names as there are spots.
pub fn names_room(spots: &[u32], length: usize) -> Result<(), Refusal>
    ensures { Checks (names_room spots.now length) result }
{
    refuse_if(length != count(spots), Refusal::NamesRoom { length })
}

/// The number of the first direction that is not sound.
fn first_unsound(numbers: &[u32]) -> Option<usize>
    ensures { FirstUnsound numbers.now result }
{
    (0..count(numbers)).find(|&i| direction_at(numbers, i).is_none())
}

/// 5: each star is a direction.
pub fn sound_stars(stars: &[u32]) -> Result<(), Refusal>
    ensures { Checks (bad_star stars.now) result }
{
    first_unsound(stars).map_or(Ok(()), |i| Err(Refusal::BadStar { star: Star(i) }))
}

/// 6: each spot is a direction.
pub fn sound_spots(spots: &[u32]) -> Result<(), Refusal>
    ensures { Checks (bad_spot spots.now) result }
{
    first_unsound(spots).map_or(Ok(()), |i| Err(Refusal::BadSpot { spot: Spot(i) }))
}

/// 7: an error of at most 1,000,000.
pub fn error_limit(error: u64) -> Result<(), Refusal>
    ensures { Checks (error_too_large error) result }
{
    refuse_if(error > LARGEST_ERROR, Refusal::ErrorTooLarge)
}

/// 8: at most 4 spots that may be no star.
pub fn none_limit(none: u64) -> Result<(), Refusal>
    ensures { Checks (none_too_large none) result }
{
    refuse_if(none > MOST_NONE, Refusal::NoneTooLarge)
}

/// 9: groups of 3 to 6 stars.
pub fn group_size(size: u64) -> Result<(), Refusal>
    ensures { Checks (group_size size) result }
{
    refuse_if(
        !(SMALLEST_GROUP..=LARGEST_GROUP).contains(&size),
        Refusal::GroupSize,
    )
}

/// 10: a room for two rows of as many stars as a group has.
pub fn rows_room(size: u64, length: usize) -> Result<(), Refusal>
    ensures { Checks (rows_room size length) result }
{
    refuse_if(
        size.checked_mul(2) != Some(length as u64),
        Refusal::RowsRoom { length },
    )
}

/// 11: a room that is long enough for the pair table.
pub fn table_room(needed: usize, length: usize) -> Result<(), Refusal>
    ensures { Checks (table_room needed length) result }
{
    refuse_if(length < needed, Refusal::TableRoom { needed })
}
