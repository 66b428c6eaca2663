// Prints the number of each pair of directions that it reads, for the gate to compare with what another program computed.
#![tactic(auto)]

use anyhow::Context;
use sky::lent::ORIGIN;
use sky::{Direction, pair_number};
use std::io::{BufRead, BufReader};
use std::str::SplitWhitespace;

/// The coordinate of the next word, as it is lent.
fn next_lent(words: &mut SplitWhitespace<'_>) -> Option<u32> {
    let coordinate: i32 = words.next()?.parse().ok()?;
    ORIGIN.checked_add_signed(coordinate)
}

/// The direction of the next three words.
fn next_direction(words: &mut SplitWhitespace<'_>) -> Option<Direction> {
    Direction::from_lent(next_lent(words)?, next_lent(words)?, next_lent(words)?)
}

/// The number of the two directions of a line.
fn number(line: &str) -> Option<u32> {
    let mut words = line.split_whitespace();
    let d = next_direction(&mut words)?;
    let e = next_direction(&mut words)?;
    words.next().is_none().then_some(pair_number(d, e))
}

fn run(rt: &HostRuntime) -> anyhow::Result<()> {
    for line in BufReader::new(rt.alloc(), rt.stdin())?.lines(rt.alloc()) {
        let line = line?;
        let n = number(line.as_str()).context(format_args!("not two directions: {line}"))?;
        println!(rt; "{n}")?;
    }
    Ok(())
}

fn main(rt: HostRuntime) -> anyhow::Result<()> {
    run(&rt)
}
