// What the programs have in common: they read a text line by line.
use crate::answer::Answer;
use crate::fault::Fault;

/// What a program makes of the lines of a text.
pub trait Program {
    /// The program's name, for its messages.
    fn name(&self) -> &'static str;

    /// How the program is used.
    fn usage(&self) -> &'static str;

    /// Reads the next line, and answers it if it is a request.
    fn read_line<'w>(&mut self, line: &'w str) -> Result<Option<Answer>, Fault<'w>>;
}
