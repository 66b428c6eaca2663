// A list of directions that grows line by line, as it is lent.
ghost use Rattle.std.specs.Prelude.{◌≡◌, [], OnOk, OnErr};
ghost use Rattle.text.specs.Standing.{LineMore};

use std::alloc::{AllocError, Global};
use std::marker::Model;

/// The directions of the lines so far, three numbers each. After a line without three numbers the
/// list keeps one number over, so that the check of the request turns it away. Contracts see the
/// numbers, as they are lent.
#[derive(Drop)]
pub(crate) struct Directions {
    numbers: Vec<u32>,
}

impl Model for Directions {
    ghost use Rattle.std.specs.Prelude.{ℕ, List};

    ghost Value = { List ℕ };

    ghost view = { λ d. d.numbers.items };
}

impl Directions {
    pub(crate) fn new(heap: Global) -> Directions
        ensures { result ≡ [] }
    {
        Directions {
            numbers: Vec::new(heap),
        }
    }

    pub(crate) fn lent(&self) -> &[u32]
        ensures { result.now ≡ self.now }
    {
        self.numbers.as_slice()
    }

    pub(crate) fn clear(&mut self)
        ensures { self.new ≡ [] }
    {
        self.numbers.clear();
    }

    /// Adds the direction of a line, or one number over where the line has none.
    pub(crate) fn add(&mut self, direction: Option<[u32; 3]>) -> Result<(), AllocError>
        ensures ok { OnOk result (LineMore direction self.old self.new) }
        ensures err { OnErr result (self.new ≡ self.old) }
    {
        // A line before had not three numbers, and no later line makes up for it.
        if self.numbers.len() % 3 != 0 {
            return Ok(());
        }
        match direction {
            Some(numbers) => self.numbers.extend_from_slice(&numbers),
            // No coordinate is lent as 0.
            None => self.numbers.extend_from_slice(&[0]),
        }
    }
}
