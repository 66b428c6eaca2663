// Runs a program on a file or on standard input: the part that reaches outside, with no rule of its own.
#![tactic(auto)]

ghost use Rattle.std.specs.Prelude.{◌≡◌, MatchResult};

use std::env;
use std::fmt::Display;
use std::fs::File;
use std::io::{BufRead, BufReader, Read};
use std::process::ExitCode;
use text::program::Program;

/// The program stopped, and has said on standard error why.
#[derive(Clone, Copy, Debug)]
pub struct Stopped;

/// The status that a program ends with. `run` has said why it stopped, and an error that `main`
/// returns would be printed behind that.
pub fn status(outcome: Result<(), Stopped>) -> ExitCode
    ensures { MatchResult outcome (λ _. result ≡ ExitCode.SUCCESS) (λ _. result ≡ ExitCode.FAILURE) }
{
    match outcome {
        Ok(()) => ExitCode::SUCCESS,
        Err(Stopped) => ExitCode::FAILURE,
    }
}

/// Runs a program on the file that its argument names, or on standard input.
pub fn run<P: Program>(rt: &HostRuntime, program: &mut P) -> Result<(), Stopped> {
    Console { rt, program }.run()
}

/// A program, and the outside that it runs in.
#[derive(Drop)]
struct Console<'a, P> {
    rt: &'a HostRuntime,
    program: &'a mut P,
}

impl<P: Program> Console<'_, P> {
    /// Runs the program as its arguments say.
    fn run(&mut self) -> Result<(), Stopped> {
        let name = self.program.name();
        let mut args = env::args(self.rt).map_err(|error| {
            self.stop(format_args!("the arguments cannot be read: {error}"))
        })?;
        let _called_as = args.next();
        let Some(word) = args.next() else {
            return self.answer_text("standard input", self.rt.stdin());
        };
        if args.next().is_some() {
            return Err(self.stop(format_args!("expected one file at most; try {name} --help")));
        }
        match word.as_str() {
            "--help" | "-h" => {
                let usage = self.program.usage();
                self.print(usage)
            }
            option if option.starts_with('-') => Err(self.stop(format_args!(
                "{option} is no option; try {name} --help"
            ))),
            path => self.answer_file(path),
        }
    }

    /// Answers the text of a file.
    fn answer_file(&mut self, path: &str) -> Result<(), Stopped> {
        let file = File::open(self.rt, path).map_err(|error| self.stop(format_args!(
            "{path} cannot be opened: {error}"
        )))?;
        self.answer_text(path, file)
    }

    /// Answers the lines of a text in turn, up to one that cannot be read.
    fn answer_text<R: Read + Drop>(&mut self, source: &str, text: R) -> Result<(), Stopped> {
        let heap = self.rt.alloc();
        let reader = BufReader::new(heap, text).map_err(|error| self.stop(format_args!(
            "{source} cannot be read: {error}"
        )))?;
        for (i, line) in reader.lines(heap).enumerate() {
            let number = i + 1;
            let place = format_args!("{source}, line {number}");
            let line = line.map_err(|error| self.stop(format_args!(
                "{place}: cannot be read: {error}"
            )))?;
            self.answer_line(place, line.as_str())?;
        }
        Ok(())
    }

    /// Answers one line of a text, which stands at a place such as `sky.txt, line 3`.
    fn answer_line(&mut self, place: impl Display + Drop, line: &str) -> Result<(), Stopped> {
        let answer = self
            .program
            .read_line(line)
            .map_err(|fault| self.stop(format_args!("{place}: {fault}")))?;
        answer.map_or(Ok(()), |answer| self.print(answer))
    }

    /// Prints a line.
    fn print(&self, line: impl Display + Drop) -> Result<(), Stopped> {
        println!(self.rt; "{line}").map_err(|error| {
            self.stop(format_args!("standard output cannot be written: {error}"))
        })
    }

    /// Says on standard error why the program stops.
    fn stop(&self, why: impl Display + Drop) -> Stopped {
        let name = self.program.name();
        let _ = eprintln!(self.rt; "{name}: {why}");
        Stopped
    }
}
