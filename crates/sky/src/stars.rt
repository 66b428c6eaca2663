// Where stars come from.
ghost use Rattle.std.specs.Prelude.{◌≡◌, List, length};
ghost use Rattle.sky.specs.Directions.{DirectionOf};
ghost use Rattle.sky.specs.Lent.{vectors};
ghost use Rattle.sky.specs.Vectors.{Vector, star_at};

use crate::direction::Direction;
use crate::index::Star;
use crate::lent::{count, direction_at};

/// The stars of a catalogue, by their numbers.
pub trait Stars {
    // The vectors of the stars, in the order of their numbers.
    ghost directions: { Self → List Vector };

    /// How many stars there are.
    fn count(&self) -> usize
        ensures { result ≡ length (directions self.now) };

    /// The direction of a star, or `None` where there is no such star or it is no direction.
    fn direction(&self, star: Star) -> Option<Direction>
        ensures { DirectionOf (star_at (directions self.now) star.0) result };
}

/// Stars that are lent as numbers, three for each.
#[derive(Clone, Copy, Debug)]
pub struct LentStars<'a>(pub &'a [u32]);

impl Stars for LentStars<'_> {
    ghost directions = { λ s. vectors s.0.now };

    #[tactic(auto, using(crate::proofs::LentVectors::vectors_length))]
    fn count(&self) -> usize {
        count(self.0)
    }

    fn direction(&self, star: Star) -> Option<Direction> {
        direction_at(self.0, star.0)
    }
}
