// Sums, differences and products.
ghost use Rattle.std.specs.Prelude.{◌≡◌, ◌+◌, ◌*◌, ◌^◌, ◌<◌, ◌≤◌, MatchOption};
ghost use Rattle.wide.specs.Value.{value};

use crate::wide::Wide;

impl Wide {
    /// The sum, or `None` where it does not fit 128 bits.
    pub fn checked_add(self, other: Wide) -> Option<Wide>
        ensures { MatchOption result (2 ^ 128 ≤ value self + value other) (λ w. value w ≡ value self + value other) }
    {
        let (low, carry) = self.low.carrying_add(other.low, false);
        let (high, over) = self.high.carrying_add(other.high, carry);
        (!over).then_some(Wide { high, low })
    }

    /// The difference, or `None` where it would be below 0.
    pub fn checked_sub(self, other: Wide) -> Option<Wide>
        ensures { MatchOption result (value self < value other) (λ w. value w + value other ≡ value self) }
    {
        let (low, borrow) = self.low.borrowing_sub(other.low, false);
        let (high, below) = self.high.borrowing_sub(other.high, borrow);
        (!below).then_some(Wide { high, low })
    }

    /// The product of two words.
    pub fn product(a: u64, b: u64) -> Wide
        ensures { value result ≡ a * b }
    {
        let (low, high) = a.carrying_mul(b, 0);
        Wide { high, low }
    }

    /// A product that fits 128 bits.
    #[tactic(auto, using(crate::proofs::Products::by_words, crate::proofs::Products::crosses_fit))]
    pub(crate) fn times(self, other: Wide) -> Wide
        requires { value self * value other < 2 ^ 128 }
        ensures { value result ≡ value self * value other }
    {
        let low = Wide::product(self.low, other.low);
        Wide {
            high: self.high * other.low + self.low * other.high + low.high,
            low: low.low,
        }
    }
}
