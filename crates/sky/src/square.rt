// A square in three parts.
use std::marker::Model;

/// The square of a number of two digits of 17 bits: high 2^34 + mixed 2^18 + low.
#[derive(Drop)]
pub(crate) struct Square {
    pub(crate) high: u64,
    pub(crate) mixed: u64,
    pub(crate) low: u64,
}

impl Model for Square {
    ghost use Rattle.std.specs.Prelude.{ℕ};

    ghost Value = { ℕ };

    ghost use Rattle.sky.specs.Squares.{squared, AreSmall};

    ghost view = { squared };

    ghost invariant = { AreSmall };
}
