// The program that names the spots of pictures, from line to line.
ghost use Rattle.requests.specs.First.{Answers};
ghost use Rattle.text.specs.Standing.{picture_conditions, NextPicture, NoPicture};

use crate::answer::Answer;
use crate::directions::Directions;
use crate::expected::Expected;
use crate::fault::Fault;
use crate::line::Line;
use crate::program::Program;
use requests::NameRequest;
use sky::lent::count;
use std::alloc::Global;

/// What stands: the catalogue so far, the spots since the last request, the error, and how many
/// spots may be no star.
#[derive(Drop)]
pub struct NamePictures {
    stars: Directions,
    spots: Directions,
    error: u64,
    none: u64,
}

const USAGE: &str = "\
Names the spots of pictures by the stars of a catalogue.

usage: name_pictures [FILE]

Reads FILE, or standard input, line by line:
  star X Y Z   one star more in the catalogue: its direction, whole numbers from -65535 to 65535
  spot X Y Z   one spot more in the picture: its direction
  error E      by how much the numbers of pairs may differ, 0 to 1000000; 0 at the start
  none Q       how many spots may be no star, 0 to 4; 0 at the start
  name         asks for the names of the spots since the last 'name'
Empty lines and lines whose first word begins with '#' are passed over.

Prints a line for each 'name': 'refused N at P' with the number of the first reason against it and
its place, counted from 0, or 'taken'. That says only that the request is in order: no names are
found yet. A line that cannot be read ends the program with status 1.";

impl NamePictures {
    pub fn new(heap: Global) -> NamePictures
        ensures { NoPicture result }
    {
        NamePictures {
            stars: Directions::new(heap),
            spots: Directions::new(heap),
            error: 0,
            none: 0,
        }
    }

    /// The answer for the picture that stands, after which the next picture begins.
    fn answer_and_clear(&mut self) -> Answer
        ensures says { Answers (picture_conditions self.old) result.0 }
        ensures next { NextPicture self.old self.new }
    {
        let answer = self.answer();
        self.spots.clear();
        answer
    }

    /// The answer for the picture that stands.
    fn answer(&self) -> Answer
        ensures { Answers (picture_conditions self.now) result.0 }
    {
        let spots = self.spots.lent();
        let request = NameRequest {
            stars: self.stars.lent(),
            spots,
            error: self.error,
            none: self.none,
            room: count(spots),
        };
        Answer(request.check())
    }
}

impl Program for NamePictures {
    fn name(&self) -> &'static str {
        "name_pictures"
    }

    fn usage(&self) -> &'static str {
        USAGE
    }

    fn read_line<'w>(&mut self, line: &'w str) -> Result<Option<Answer>, Fault<'w>> {
        let Some(line) = Line::new(line) else {
            return Ok(None);
        };
        match line.word {
            "star" => self.stars.add(line.rest(Expected::STAR).direction()?)?,
            "spot" => self.spots.add(line.rest(Expected::SPOT).direction()?)?,
            "error" => self.error = line.rest(Expected::ERROR).number()?,
            "none" => self.none = line.rest(Expected::NONE).number()?,
            "name" => {
                line.rest(Expected::NAME).end()?;
                return Ok(Some(self.answer_and_clear()));
            }
            word => return Err(Expected("star, spot, error, none or name").but_found(Some(word))),
        }
        Ok(None)
    }
}
