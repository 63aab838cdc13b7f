//! The program `steps` calls the libraries as a text on standard input says, and prints what each call answers.
//!
//! Each line of the text is a step: a word that names the call, and its values. Each step is answered by one line; a
//! step that isn't understood, by `?`. `tests/steps.py` says which steps there are, and makes them.
#![tactic(auto)]

mod answers;
mod asked;
mod commands_called;
mod devices;
mod failing;
mod harness;
mod held_session;
mod loading;
mod over_plan;
mod parts;
mod plans;
mod sessions;
mod words;

use failing::Ration;
use harness::Harness;
use std::io::{self, Write};
use std::process::ExitCode;

fn main(rt: HostRuntime) -> ExitCode {
    let Ok(text) = io::read_to_string(rt.alloc(), rt.stdin()) else {
        return ExitCode::from(2);
    };
    let ration = Ration::new(rt.alloc(), 0);
    let mut harness = Harness::new(&rt, &ration, text.as_str());
    plans::perform(&ration, &mut harness);
    match rt.stdout().write_all(harness.answers()) {
        Ok(()) => ExitCode::SUCCESS,
        Err(_) => ExitCode::from(2),
    }
}
