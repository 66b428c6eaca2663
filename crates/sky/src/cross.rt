// The square of the length of a cross product.
ghost use Rattle.std.specs.Prelude.{◌≡◌, ◌+◌, ◌*◌, ◌^◌, ◌<◌, ◌-ℤ◌, ◌*ℤ◌, unsigned_abs};
ghost use Rattle.wide.specs.Value.{value};
ghost use Rattle.sky.specs.Directions.{vector};
ghost use Rattle.sky.specs.Vectors.{length², cross};

use crate::coordinate::Coordinate;
use crate::direction::Direction;
use crate::square::Square;
use wide::Wide;

/// What a b less c d is in amount: a component of a cross product.
fn component(a: Coordinate, b: Coordinate, c: Coordinate, d: Coordinate) -> u64
    ensures amount { result ≡ unsigned_abs (a.value *ℤ b.value -ℤ c.value *ℤ d.value) }
    ensures bound { result < 2 ^ 34 }
{
    (a * b - c * d).unsigned_abs()
}

/// The square of a component, by its digits of 17 bits.
fn square_of(component: u64) -> Square
    requires { component < 2 ^ 34 }
    ensures { result ≡ component * component }
{
    let (c1, c0) = (component / 0x2_0000, component % 0x2_0000);
    Square {
        high: c1 * c1,
        mixed: c1 * c0,
        low: c0 * c0,
    }
}

/// 2^24 times the sum of three squares. No sum but the last needs two words.
fn scaled_sum(x: Square, y: Square, z: Square) -> Wide
    ensures { value result ≡ 16777216 * (x + (y + z)) }
{
    let high = x.high + y.high + z.high;
    let mixed = x.mixed + y.mixed + z.mixed;
    let low = x.low + y.low + z.low;
    let front = Wide::product(high, 0x400_0000_0000_0000);
    let rest = Wide::product(mixed * 0x4_0000 + low, 0x100_0000);
    front.checked_add(rest).unwrap()
}

/// 2^24 times the square of the length of two directions' cross product; below 2^92.
pub(crate) fn scaled_cross(d: Direction, e: Direction) -> Wide
    ensures { value result ≡ 16777216 * length² (cross (vector d) (vector e)) }
{
    scaled_sum(
        square_of(component(d.y, e.z, d.z, e.y)),
        square_of(component(d.z, e.x, d.x, e.z)),
        square_of(component(d.x, e.y, d.y, e.x)),
    )
}
