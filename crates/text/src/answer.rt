// The answer to a request, and the line that is printed for it.
use requests::Refusal;
use std::fmt;

/// The answer to a request: that it is taken, or the first reason against it.
#[derive(Clone, Copy, PartialEq, Eq, Debug)]
pub struct Answer(pub Result<(), Refusal>);

impl fmt::Display for Answer {
    fn fmt<W: fmt::Write>(&self, f: &mut fmt::Formatter<W>) -> fmt::Result {
        match self.0 {
            Ok(()) => write!(f, "taken"),
            Err(refusal) => write!(f, "refused {} at {}", refusal.number(), refusal.place()),
        }
    }
}
