// Checks whether the groups of stars of a catalogue can be told apart.
#![tactic(auto)]

use console::{run, status};
use std::process::ExitCode;
use text::check_catalogue::CheckCatalogue;

fn main(rt: HostRuntime) -> ExitCode {
    status(run(&rt, &mut CheckCatalogue::new(rt.alloc())))
}
