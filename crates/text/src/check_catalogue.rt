// The program that checks catalogues, from line to line.
ghost use Rattle.requests.specs.First.{Answers};
ghost use Rattle.text.specs.Standing.{group_conditions, NoCatalogue};

use crate::answer::Answer;
use crate::directions::Directions;
use crate::expected::Expected;
use crate::fault::Fault;
use crate::line::Line;
use crate::program::Program;
use requests::ApartRequest;
use requests::limits::LARGEST_GROUP;
use std::alloc::Global;

/// What stands: the catalogue so far, and the error.
#[derive(Drop)]
pub struct CheckCatalogue {
    stars: Directions,
    error: u64,
}

const USAGE: &str = "\
Says of a catalogue whether groups of its stars can always be told apart.

usage: check_catalogue [FILE]

Reads FILE, or standard input, line by line:
  star X Y Z   one star more in the catalogue: its direction, whole numbers from -65535 to 65535
  error E      by how much the numbers of pairs may differ, 0 to 1000000; 0 at the start
  apart K      asks whether groups of K stars, 3 to 6, are told apart
Empty lines and lines whose first word begins with '#' are passed over.

Prints a line for each 'apart': 'refused N at P' with the number of the first reason against it and
its place, counted from 0, or 'taken'. That says only that the request is in order: no groups are
compared yet. A line that cannot be read ends the program with status 1.";

impl CheckCatalogue {
    pub fn new(heap: Global) -> CheckCatalogue
        ensures { NoCatalogue result }
    {
        CheckCatalogue {
            stars: Directions::new(heap),
            error: 0,
        }
    }

    /// The answer for groups of so many stars of the catalogue that stands.
    fn answer(&self, size: u64) -> Answer
        ensures { Answers (group_conditions self.now size) result.0 }
    {
        let request = ApartRequest {
            stars: self.stars.lent(),
            error: self.error,
            size,
            room: 2 * size.min(LARGEST_GROUP) as usize,
        };
        Answer(request.check())
    }
}

impl Program for CheckCatalogue {
    fn name(&self) -> &'static str {
        "check_catalogue"
    }

    fn usage(&self) -> &'static str {
        USAGE
    }

    fn read_line<'w>(&mut self, line: &'w str) -> Result<Option<Answer>, Fault<'w>> {
        let Some(line) = Line::new(line) else {
            return Ok(None);
        };
        match line.word {
            "star" => self.stars.add(line.rest(Expected::STAR).direction()?)?,
            "error" => self.error = line.rest(Expected::ERROR).number()?,
            "apart" => {
                let size = line.rest(Expected::APART).number()?;
                return Ok(Some(self.answer(size)));
            }
            word => return Err(Expected("star, error or apart").but_found(Some(word))),
        }
        Ok(None)
    }
}
