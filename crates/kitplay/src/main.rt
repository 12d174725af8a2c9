//! Runs the program in the file that its word names: its output on standard output, its journal on standard error.
#![tactic(auto)]

use kt_edge::{HostFiles, HostSink, HostSource};
use kt_play::play::play;
use kt_play::status::{Status, exit_code};
use std::process::ExitCode;
use std::{env, io};

fn main(rt: HostRuntime) -> ExitCode {
    let status = match words(&rt) {
        Ok(words) => play(
            rt.alloc(),
            words.as_slice(),
            &mut HostFiles::new(&rt),
            &mut HostSource::new(rt.stdin()),
            &mut HostSink::new(rt.stdout()),
            &mut HostSink::new(rt.stderr()),
        ),
        Err(status) => status,
    };
    ExitCode::from(exit_code(status))
}

// The words behind the program's name. Words that are no text are no order.
fn words(rt: &HostRuntime) -> Result<Vec<String>, Status> {
    let mut words = Vec::new(rt.alloc());
    for word in env::args(rt).map_err(status_of)?.skip(1) {
        words.push(word).map_err(|_| Status::NoMemory)?;
    }
    Ok(words)
}

fn status_of(error: io::Error) -> Status {
    match error.kind() {
        io::ErrorKind::OutOfMemory => Status::NoMemory,
        _ => Status::Words,
    }
}
