// A number that can be divided by.
ghost use Rattle.std.specs.Prelude.{◌≡◌, ◌+◌, ◌*◌, ◌^◌, ◌<◌, ◌≤◌, MatchOption};
ghost use Rattle.wide.specs.Leading.{Past32};
ghost use Rattle.wide.specs.Value.{value};

use crate::wide::Wide;

/// A number above 0, and its leading bits, rounded up: `top` times 2^`shift` is at least the number,
/// and more by at most one part in 2^31.
#[derive(Clone, Copy)]
pub struct Divisor {
    pub(crate) number: Wide,
    pub(crate) top: u64,
    pub(crate) shift: u32,
    ghost positive: { 0 < value number },
    ghost covers: { value number ≤ top * 2 ^ shift },
    ghost near: { top * 2 ^ shift * 2 ^ 31 ≤ value number * (2 ^ 31 + 1) },
    ghost short: { top ≤ 2 ^ 32 },
    ghost bound: { shift ≤ 96 },
}

impl Divisor {
    /// The number as a divisor, or `None` where it is 0.
    #[tactic(auto, using(crate::proofs::Bits::none_left))]
    pub fn new(number: Wide) -> Option<Divisor>
        ensures { MatchOption result (value number ≡ 0) (λ d. d.number ≡ number) }
    {
        let shift = bits_past_32(number);
        let lead = number.without_last(shift).low;
        if lead == 0 {
            return None;
        }
        // Bits that are cut off make less than 1, so one more covers the number.
        let top = if shift == 0 { lead } else { lead + 1 };
        Some(Divisor { number, top, shift })
    }
}

/// How many bits a number has past its first 32.
#[tactic(auto, using(crate::proofs::Bits::past_32))]
fn bits_past_32(number: Wide) -> u32
    ensures past { Past32 (value number) result }
    ensures bound { result ≤ 96 }
{
    96u32.saturating_sub(u128::from(number).leading_zeros())
}
