// A direction.
ghost use Rattle.std.specs.Prelude.{◌≡◌, ◌<◌, IfSome};
ghost use Rattle.sky.specs.Lent.{lent};
ghost use Rattle.sky.specs.Vectors.{Sound, vec, length²};

use crate::coordinate::Coordinate;

/// Where a star or a spot stands, seen from the camera: three coordinates from -65,535 to 65,535,
/// not all 0. Its length means nothing.
#[derive(Clone, Copy)]
pub struct Direction {
    pub(crate) x: Coordinate,
    pub(crate) y: Coordinate,
    pub(crate) z: Coordinate,
    ghost sound: { Sound (vec x.value y.value z.value) },
}

impl Direction {
    ghost use Rattle.sky.specs.Directions.{vector, DirectionOf};

    /// The direction that three numbers are lent for, or `None` where they are not sound.
    pub fn from_lent(x: u32, y: u32, z: u32) -> Option<Direction>
        ensures made { DirectionOf (lent x y z) result }
        ensures sound { IfSome result (λ d. Sound (vector d)) }
    {
        let x = Coordinate::from_lent(x)?;
        let y = Coordinate::from_lent(y)?;
        let z = Coordinate::from_lent(z)?;
        if x.is_zero() && y.is_zero() && z.is_zero() {
            return None;
        }
        Some(Direction { x, y, z })
    }

    /// That the direction is sound, as a clause: each one is, behind a reference too.
    pub fn sound(&self)
        ensures { Sound (vector self.now) }
    {}

    /// The sum of the squares of the coordinates; below 2^34.
    pub(crate) fn length_squared(self) -> u64
        ensures value { result ≡ length² (vector self) }
        ensures positive { 0 < result }
    {
        self.x.square() + (self.y.square() + self.z.square())
    }
}
