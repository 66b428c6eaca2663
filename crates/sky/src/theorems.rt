// What holds of the numbers of all pairs: each function has a theorem as its contract, and does nothing.
ghost use Rattle.sky.specs.Examples.{WorkedExamples};
ghost use Rattle.sky.specs.Theorems.{SameEitherWay, SineAtMostOne, AtMost2^24, Fits128Bits};

/// The number of a pair is the same either way round.
#[tactic(auto, using(crate::proofs::Pairs::same_either_way))]
pub fn same_either_way()
    ensures { SameEitherWay }
{}

/// A sine is at most 1.
#[tactic(auto, using(crate::proofs::Pairs::sine_at_most_one))]
pub fn sine_at_most_one()
    ensures { SineAtMostOne }
{}

/// The number of a pair is at most 2^24.
pub fn at_most_2_24()
    ensures { AtMost2^24 }
{}

/// 128 bits suffice for every step to the number of a pair of directions.
pub fn fits_128_bits()
    ensures { Fits128Bits }
{}

/// The worked examples.
pub fn worked_examples()
    ensures { WorkedExamples }
{}
