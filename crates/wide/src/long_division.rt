// A long division, step by step.
ghost use Rattle.std.specs.Prelude.{◌≡◌, ◌+◌, ◌*◌, ◌^◌, ◌<◌, ◌≤◌, ◌↔◌, IsTrue, MatchOption};
ghost use Rattle.wide.specs.Value.{value};

use crate::divisor::Divisor;
use crate::wide::Wide;

/// The quotient so far, what is left of the number that is divided, and the divisor.
#[derive(Clone, Copy)]
pub(crate) struct LongDivision {
    pub(crate) quotient: Wide,
    pub(crate) remainder: Wide,
    pub(crate) divisor: Divisor,
    ghost fits: { value quotient * value divisor.number + value remainder < 2 ^ 128 },
}

impl LongDivision {
    ghost use Rattle.wide.specs.Divided.{Part};
    ghost use Rattle.wide.specs.LongDivision.{dividend, IsShort, SameDivision};

    /// A number of which nothing was taken yet.
    pub(crate) fn new(number: Wide, divisor: Divisor) -> LongDivision
        ensures dividend { dividend result ≡ value number }
        ensures divisor { result.divisor ≡ divisor }
    {
        LongDivision {
            quotient: Wide::from(0),
            remainder: number,
            divisor,
        }
    }

    /// Takes the divisor off `part` times: the quotient grows by what the remainder loses.
    fn take_off(&mut self, part: Wide)
        requires { value part * value self.old.divisor.number ≤ value self.old.remainder }
        ensures same { SameDivision self.old self.new }
        ensures less { value self.new.remainder + value part * value self.old.divisor.number ≡ value self.old.remainder }
    {
        let taken = part.times(self.divisor.number);
        self.quotient = self.quotient.checked_add(part).unwrap();
        self.remainder = self.remainder.checked_sub(taken).unwrap();
    }

    /// A part of a long quotient, from the leading bits alone; none where the quotient is short.
    fn high_part(&self) -> Option<Wide>
        ensures { MatchOption result (IsShort self.now) (λ p. Part (value self.now.remainder) (value self.now.divisor.number) (value p) × (IsShort self.now → ⊥)) }
    {
        let top = self.divisor.top;
        let lead = self.remainder.without_last(self.divisor.shift);
        if lead.high >= top {
            return Some(Wide {
                high: lead.high / top,
                low: 0,
            });
        }
        let middle = lead.high * 0x1_0000_0000 + lead.low / 0x1_0000_0000;
        if middle >= top {
            return Some(Wide::product(middle / top, 0x1_0000_0000));
        }
        None
    }

    /// Takes the divisor off until the quotient has become short: below 2^32.
    pub(crate) fn take_high_parts(&mut self)
        ensures same { SameDivision self.old self.new }
        ensures short { IsShort self.new }
    {
        while let Some(part) = self.high_part() {
            self.take_off(part);
        }
    }

    /// A short quotient, or up to two less.
    #[tactic(auto, using(crate::proofs::Parts::near_part))]
    fn low_part(&self) -> u32
        requires { IsShort self.now }
        ensures fits { result * value self.now.divisor.number ≤ value self.now.remainder }
        ensures near { value self.now.remainder < (result + 3) * value self.now.divisor.number }
    {
        let lead = self.remainder.without_last(self.divisor.shift);
        (lead.low / self.divisor.top) as u32
    }

    /// Takes the divisor off as often as `low_part` says.
    pub(crate) fn take_low_part(&mut self)
        requires { IsShort self.old }
        ensures same { SameDivision self.old self.new }
        ensures near { value self.new.remainder < 3 * value self.new.divisor.number }
    {
        let part = self.low_part();
        self.take_off(Wide::from(u64::from(part)));
    }

    /// Whether the divisor goes no more into what is left.
    fn is_done(&self) -> bool
        ensures { IsTrue result ↔ (value self.now.remainder < value self.now.divisor.number) }
    {
        self.remainder < self.divisor.number
    }

    /// Takes the divisor off twice at most.
    pub(crate) fn take_last_two(&mut self)
        requires { value self.old.remainder < 3 * value self.old.divisor.number }
        ensures same { SameDivision self.old self.new }
        ensures small { value self.new.remainder < value self.new.divisor.number }
    {
        // No `while`: that two turns suffice is part of what is proved.
        for _turn in 0..2u32 {
            if self.is_done() {
                return;
            }
            self.take_off(Wide::from(1));
        }
    }
}
