// What should stand in a line, for the message where it does not.
use crate::fault::Fault;

/// What should stand in a line.
#[derive(Clone, Copy)]
pub(crate) struct Expected(pub(crate) &'static str);

impl Expected {
    pub(crate) const STAR: Expected = Expected("'star X Y Z' with whole numbers");

    pub(crate) const SPOT: Expected = Expected("'spot X Y Z' with whole numbers");

    pub(crate) const ERROR: Expected = Expected("'error E' with one whole number from 0 on");

    pub(crate) const NONE: Expected = Expected("'none Q' with one whole number from 0 on");

    pub(crate) const NAME: Expected = Expected("'name' alone");

    pub(crate) const APART: Expected = Expected("'apart K' with one whole number from 0 on");

    /// The fault that this word stands there instead, or, at `None`, that the line ends.
    pub(crate) fn but_found(self, word: Option<&str>) -> Fault<'_> {
        Fault::Unexpected {
            found: word,
            expected: self.0,
        }
    }
}
