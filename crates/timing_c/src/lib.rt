// What the benchmarks call: an entry in C's way of calling for each public function of `timing`.
#![tactic(auto)]

ghost use Rattle.std.specs.Prelude.{◌≡◌, ◌%◌, ◌^◌};
ghost use Rattle.sky.specs.Lent.{vectors};
ghost use Rattle.timing.specs.Sums.{AllSound, sum_of_all};

/// The sum of the numbers of all pairs of stars, modulo 2^64. Where a star is no direction, the sum means nothing.
#[unsafe(no_mangle)]
pub extern "C" fn sum_of_pair_numbers(stars: &[u32]) -> u64
    ensures { AllSound (vectors stars.now) → result ≡ sum_of_all (vectors stars.now) % 2 ^ 64 }
{
    timing::sum_of_pair_numbers(stars)
}
