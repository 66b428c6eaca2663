// What the benchmarks time; `timing_c` has the entries that programs outside of the repository's crates call.
#![tactic(auto)]

ghost use Rattle.std.specs.Prelude.{MatchOption, ◌≡◌, ◌%◌, ◌^◌, ◌<◌, length};
ghost use Rattle.sky.specs.Lent.{vectors};
ghost use Rattle.timing.specs.Sums.{AllSound, sum_of_row, sum_of_all};

use sky::stars::Stars;
use sky::{LentStars, Star, pair_number};

/// The sum of the numbers of a star with all stars before it, modulo 2^64, or `None` where one of
/// them is no direction.
fn sum_of_row(stars: LentStars<'_>, s: usize) -> Option<u64>
    ensures { MatchOption result (AllSound (vectors stars.entry.0.now) × (s < length (vectors stars.entry.0.now)) → ⊥) (λ sum. sum ≡ sum_of_row (vectors stars.entry.0.now) s s % 2 ^ 64) }
{
    let d = stars.direction(Star(s))?;
    // A `for` here and below: the check finds no proof of what `try_fold` and `fold` give.
    let mut sum: u64 = 0;
    for t in 0..s {
        let e = stars.direction(Star(t))?;
        sum = sum.wrapping_add(u64::from(pair_number(d, e)));
    }
    Some(sum)
}

/// The sum of the numbers of all pairs of stars, modulo 2^64. Where a star is no direction, the sum means nothing.
pub fn sum_of_pair_numbers(stars: &[u32]) -> u64
    ensures { AllSound (vectors stars.now) → result ≡ sum_of_all (vectors stars.now) % 2 ^ 64 }
{
    let stars = LentStars(stars);
    let mut sum: u64 = 0;
    for s in 0..stars.count() {
        sum = sum.wrapping_add(sum_of_row(stars, s).unwrap_or(0));
    }
    sum
}
