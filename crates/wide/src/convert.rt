// From a word, and to the language's own numbers of 128 bits.
ghost use Rattle.std.specs.Prelude.{◌≡◌};
ghost use Rattle.wide.specs.Value.{value};

use crate::wide::Wide;

impl From<u64> for Wide {
    ghost from_gives = { λ n w. value w ≡ n };

    fn from(word: u64) -> Wide {
        Wide { high: 0, low: word }
    }
}

impl From<Wide> for u128 {
    ghost from_gives = { λ w n. n ≡ value w };

    fn from(number: Wide) -> u128 {
        u128::from(number.high) << 64 | u128::from(number.low)
    }
}
