//! The program: `run` over the system's files and streams.
#![tactic(auto)]

use enc_base::{HostLibrary, HostSink};
use enc_run::run;
use std::env;
use std::io::ErrorKind;
use std::process::ExitCode;
use std::rt::Env;

// The words after the program's own name, or the status where the system doesn't give them.
fn words(rt: &(impl Env + AllocGlobal)) -> Result<Vec<String>, u8> {
    match env::args(rt) {
        Ok(words) => match words.skip(1).collect(rt.alloc()) {
            Ok(words) => Ok(words),
            Err(_) => Err(8),
        },
        Err(error) => match error.kind() {
            ErrorKind::OutOfMemory => Err(8),
            _ => Err(2),
        },
    }
}

fn main(rt: HostRuntime) -> ExitCode {
    let words = match words(&rt) {
        Ok(words) => words,
        Err(status) => return ExitCode::from(status),
    };
    let mut files = HostLibrary::new(&rt);
    let mut out = HostSink::new(rt.stdout());
    let mut notes = HostSink::new(rt.stderr());
    ExitCode::from(run(
        rt.alloc(),
        words.as_slice(),
        &mut files,
        &mut out,
        &mut notes,
    ))
}
