// Why a line cannot be read.
use std::alloc::AllocError;
use std::error::Error;
use std::fmt;

/// Why the program cannot go on at a line.
#[derive(Clone, Copy, PartialEq, Eq, Debug)]
pub enum Fault<'w> {
    /// A word, or the end of the line, stands where something else was expected.
    Unexpected {
        /// The word, or `None` at the end of the line.
        found: Option<&'w str>,
        expected: &'static str,
    },
    NoMemory,
}

impl fmt::Display for Fault<'_> {
    fn fmt<W: fmt::Write>(&self, f: &mut fmt::Formatter<W>) -> fmt::Result {
        match self {
            Fault::Unexpected {
                found: Some(word),
                expected,
            } => write!(f, "expected {expected}, found '{}'", Shown(word)),
            Fault::Unexpected {
                found: None,
                expected,
            } => write!(f, "expected {expected}, found the end of the line"),
            Fault::NoMemory => write!(f, "no memory is left"),
        }
    }
}

impl Error for Fault<'_> {}

impl From<AllocError> for Fault<'_> {
    ghost use Rattle.std.specs.Prelude.{◌≡◌};
    ghost use Rattle.text.specs.declared.fault.Fault.TheVariants.{NoMemory};

    ghost from_gives = { λ _ fault. fault ≡ NoMemory };

    fn from(_error: AllocError) -> Self {
        Self::NoMemory
    }
}

/// How many characters of a word are shown.
const SHOWN: usize = 40;

/// A word as a message shows it: its beginning, and by number what a terminal would not show as it is.
#[derive(Clone, Copy)]
struct Shown<'w>(&'w str);

impl fmt::Display for Shown<'_> {
    fn fmt<W: fmt::Write>(&self, f: &mut fmt::Formatter<W>) -> fmt::Result {
        for c in self.0.chars().take(SHOWN) {
            if c.is_ascii_graphic() {
                f.write_char(c)?;
            } else {
                write!(f, "{}", c.escape_unicode())?;
            }
        }
        if self.0.chars().nth(SHOWN).is_some() {
            f.write_str("...")?;
        }
        Ok(())
    }
}
