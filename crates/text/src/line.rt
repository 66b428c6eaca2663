// The words of a line.
use crate::expected::Expected;
use crate::fault::Fault;
use crate::number::{coordinate, whole};
use std::str::SplitWhitespace;

/// A line that says something: its first word, and the words behind it.
#[derive(Drop)]
pub(crate) struct Line<'w> {
    pub(crate) word: &'w str,
    words: SplitWhitespace<'w>,
}

/// What is left of a line behind its first word, and what should stand in the line.
#[derive(Drop)]
pub(crate) struct Rest<'w> {
    words: SplitWhitespace<'w>,
    expected: Expected,
}

impl<'w> Line<'w> {
    /// The line, or `None` where it is empty or a comment.
    pub(crate) fn new(text: &'w str) -> Option<Line<'w>> {
        let mut words = text.split_whitespace();
        let word = words.next().filter(|word| !word.starts_with('#'))?;
        Some(Line { word, words })
    }

    /// What stands behind the first word.
    pub(crate) fn rest(self, expected: Expected) -> Rest<'w> {
        Rest {
            words: self.words,
            expected,
        }
    }
}

impl<'w> Rest<'w> {
    /// The one number that stands alone.
    pub(crate) fn number(mut self) -> Result<u64, Fault<'w>> {
        let word = self.words.next();
        let number = word.and_then(whole).ok_or(self.expected.but_found(word))?;
        self.end()?;
        Ok(number)
    }

    /// Nothing more stands in the line.
    pub(crate) fn end(mut self) -> Result<(), Fault<'w>> {
        self.words
            .next()
            .map_or(Ok(()), |word| Err(self.expected.but_found(Some(word))))
    }

    /// The coordinate of the next word, as it is lent, or `None` at the end of the line.
    fn next_coordinate(&mut self) -> Result<Option<u32>, Fault<'w>> {
        let word = self.words.next();
        word.map(|word| coordinate(word).ok_or(self.expected.but_found(Some(word))))
            .transpose()
    }

    /// The three coordinates of a direction, as they are lent, or `None` where there are more or
    /// fewer. Every word has to be a coordinate.
    pub(crate) fn direction(mut self) -> Result<Option<[u32; 3]>, Fault<'w>> {
        let Some(x) = self.next_coordinate()? else {
            return Ok(None);
        };
        let Some(y) = self.next_coordinate()? else {
            return Ok(None);
        };
        let Some(z) = self.next_coordinate()? else {
            return Ok(None);
        };
        if self.next_coordinate()?.is_none() {
            return Ok(Some([x, y, z]));
        }
        self.words
            .find(|word| coordinate(word).is_none())
            .map_or(Ok(None), |word| Err(self.expected.but_found(Some(word))))
    }
}
