// Quotient and remainder.
ghost use Rattle.std.specs.Prelude.{◌≡◌, MatchOption};
ghost use Rattle.wide.specs.Divided.{Divided};
ghost use Rattle.wide.specs.Value.{value};

use crate::divisor::Divisor;
use crate::long_division::LongDivision;
use crate::wide::Wide;

/// How often a divisor goes into a number, and what is left.
#[derive(Clone, Copy, PartialEq, Eq, Debug)]
pub struct Division {
    pub quotient: Wide,
    pub remainder: Wide,
}

impl Wide {
    /// Quotient and remainder. A quotient below 2^32 takes one division of words, and the divisor is
    /// taken off three times at most.
    pub fn divided_by(self, divisor: Divisor) -> Division
        ensures { Divided (value self) (value divisor.number) (value result.quotient) (value result.remainder) }
    {
        let mut division = LongDivision::new(self, divisor);
        division.take_high_parts();
        division.take_low_part();
        division.take_last_two();
        Division {
            quotient: division.quotient,
            remainder: division.remainder,
        }
    }

    /// Quotient and remainder, or `None` where the divisor is 0.
    pub fn checked_div_rem(self, divisor: Wide) -> Option<Division>
        ensures { MatchOption result (value divisor ≡ 0) (λ d. Divided (value self) (value divisor) (value d.quotient) (value d.remainder)) }
    {
        Some(self.divided_by(Divisor::new(divisor)?))
    }
}
