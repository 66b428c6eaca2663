// The number of a pair of directions.
ghost use Rattle.std.specs.Prelude.{◌≡◌, ◌*◌, ◌≤◌};
ghost use Rattle.wide.specs.Value.{value};
ghost use Rattle.sky.specs.Directions.{vector, NumberOf};
ghost use Rattle.sky.specs.Vectors.{length², pair_number};

use crate::cross::scaled_cross;
use crate::direction::Direction;
use crate::index::Star;
use crate::stars::Stars;
use wide::{Divisor, Wide};

/// The product of the squares of two directions' lengths, to divide by; below 2^68.
fn squared_lengths(d: Direction, e: Direction) -> Divisor
    ensures { value result.number ≡ length² (vector d) * length² (vector e) }
{
    Divisor::new(Wide::product(d.length_squared(), e.length_squared())).unwrap()
}

/// The number of a pair of directions: the square of the sine of the angle between them, in parts
/// of 2^24, rounded down.
pub fn pair_number(d: Direction, e: Direction) -> u32
    ensures value { result ≡ pair_number (vector d) (vector e) }
    ensures either_way { result ≡ pair_number (vector e) (vector d) }
    ensures bound { result ≤ 16777216 }
{
    let division = scaled_cross(d, e).divided_by(squared_lengths(d, e));
    division.quotient.low as u32
}

/// The number of a pair of stars, or `None` where one of them is no direction.
pub fn star_pair_number<S: Stars>(stars: &S, s: Star, t: Star) -> Option<u32>
    ensures { NumberOf (S.directions stars.now) s.0 t.0 result }
{
    Some(pair_number(stars.direction(s)?, stars.direction(t)?))
}
