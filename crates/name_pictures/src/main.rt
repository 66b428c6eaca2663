// Names the spots of the pictures of a text.
#![tactic(auto)]

use console::{run, status};
use std::process::ExitCode;
use text::name_pictures::NamePictures;

fn main(rt: HostRuntime) -> ExitCode {
    status(run(&rt, &mut NamePictures::new(rt.alloc())))
}
