//! The program `cgrlist`: lists the routes of a contact plan, best first.
#![tactic(auto)]

use commands::{Disk, Failure, report_failure, run_words};
use sabr_model::Device;
use std::alloc::Global;
use std::env;
use std::io::ErrorKind;
use std::process::ExitCode;

fn main(rt: HostRuntime) -> ExitCode {
    let mut out = Device::new(rt.stdout());
    let mut err = Device::new(rt.stderr());
    let status = match arguments(&rt) {
        Ok(arguments) => match words(rt.alloc(), &arguments) {
            Ok(words) => {
                let mut files = Disk::new(&rt);
                run_words(rt.alloc(), words.as_slice(), &mut files, &mut out, &mut err)
            }
            Err(failure) => report_failure(&mut err, failure),
        },
        Err(failure) => report_failure(&mut err, failure),
    };
    ExitCode::from(status.number())
}

/// The words that the program was started with, after its name.
fn arguments(rt: &HostRuntime) -> Result<Vec<String>, Failure> {
    match env::args(rt) {
        Ok(arguments) => match arguments.skip(1).collect(rt.alloc()) {
            Ok(arguments) => Ok(arguments),
            Err(_) => Err(Failure::NoMemory),
        },
        Err(error) => Err(if error.kind() == ErrorKind::OutOfMemory {
            Failure::NoMemory
        } else {
            Failure::NotUtf8
        }),
    }
}

/// Returns the arguments as string slices.
fn words<'a>(alloc: Global, arguments: &'a [String]) -> Result<Vec<&'a str>, Failure> {
    let mut words = Vec::new(alloc);
    for argument in arguments {
        let Ok(()) = words.push(argument.as_str()) else {
            return Err(Failure::NoMemory);
        };
    }
    Ok(words)
}
