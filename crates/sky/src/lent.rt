// Directions as they are lent: each coordinate with 65,536 added, three numbers one after another.
ghost use Rattle.std.specs.Prelude.{◌≡◌, IfSome};
ghost use Rattle.sky.specs.Directions.{vector, DirectionOf};
ghost use Rattle.sky.specs.Lent.{count, vectors};
ghost use Rattle.sky.specs.Vectors.{Sound, star_at};

pub use crate::coordinate::ORIGIN;
use crate::direction::Direction;

/// How many directions a list of lent numbers holds.
pub fn count(numbers: &[u32]) -> usize
    ensures { result ≡ count numbers.now }
{
    numbers.len() / 3
}

/// The direction with number `i` of a list of lent numbers, or `None` where there is none, or what
/// is lent for it is not sound.
#[tactic(auto, using(crate::proofs::LentVectors::vectors_past, crate::proofs::LentVectors::direction_at))]
pub fn direction_at(numbers: &[u32], i: usize) -> Option<Direction>
    ensures made { DirectionOf (star_at (vectors numbers.now) i) result }
    ensures sound { IfSome result (λ d. Sound (vector d)) }
{
    if i >= count(numbers) {
        return None;
    }
    Direction::from_lent(numbers[3 * i], numbers[3 * i + 1], numbers[3 * i + 2])
}
