// A coordinate of a direction.
ghost use Rattle.std.specs.Prelude.{◌≡◌, ◌*◌, ◌≤◌, ◌*ℤ◌, ◌↔◌, pos, unsigned_abs, IsTrue, MatchOption};
ghost use Rattle.sky.specs.Lent.{coordinate};
ghost use Rattle.sky.specs.Vectors.{InRange, square};

use std::ops::Mul;

/// What is added to a coordinate when it is lent.
pub const ORIGIN: u32 = 65_536;

/// The largest number that is lent for a coordinate.
const LARGEST: u32 = 131_071;

/// A whole number from -65,535 to 65,535.
#[derive(Clone, Copy)]
pub(crate) struct Coordinate {
    value: i32,
    ghost in_range: { InRange value },
}

impl Coordinate {
    /// The coordinate that a number is lent for, or `None` where it is out of range.
    pub(crate) fn from_lent(n: u32) -> Option<Coordinate>
        ensures { MatchOption result (InRange (coordinate n) → ⊥) (λ c. (c.value ≡ coordinate n) × InRange c.value) }
    {
        if !(1..=LARGEST).contains(&n) {
            return None;
        }
        Some(Coordinate {
            value: n as i32 - ORIGIN as i32,
        })
    }

    pub(crate) fn is_zero(self) -> bool
        ensures { IsTrue result ↔ (self.value ≡ pos 0) }
    {
        self.value == 0
    }

    #[tactic(auto, unfolding(crate::specs::Vectors::square))]
    pub(crate) fn square(self) -> u64
        ensures value { result ≡ square self.value }
        ensures bound { result ≤ 65535 * 65535 }
    {
        let amount = u64::from(self.value.unsigned_abs());
        amount * amount
    }
}

impl Mul for Coordinate {
    type Output = i64;

    ghost mul_gives = { λ a b product. (product ≡ a.value *ℤ b.value) × (unsigned_abs product ≤ 65535 * 65535) };

    fn mul(self, other: Coordinate) -> i64 {
        i64::from(self.value) * i64::from(other.value)
    }
}
