//! Cases as data: texts and the calls to make, read from standard input, and what the calls answer.
#![tactic(auto)]

mod answers;
mod arguments;
mod binders;
mod bounds;
mod call;
mod carrying;
mod copies;
mod counting;
mod encoding;
mod encodings;
mod files;
mod given;
mod instances;
mod models;
mod out;
mod problems;
mod put_core;
mod put_normal;
mod put_problem;
mod put_raw;
mod put_tables;
mod refusals;
mod script;
mod standing;
mod stop;
mod syntax;
mod texts;
mod untyped;

use out::Out;
use std::alloc::AllocError;
use std::io;
use std::io::{Read, Write};
use std::process::ExitCode;

fn main(rt: HostRuntime) -> io::Result<ExitCode> {
    let mut text = Vec::new(rt.alloc());
    rt.stdin().read_to_end(&mut text)?;
    let mut out = Out::new(rt.alloc());
    let ended = script::run(rt.alloc(), text.as_slice(), &mut out);
    rt.stdout().write_all(out.as_slice())?;
    match ended {
        Ok(()) if out.is_whole() => Ok(ExitCode::SUCCESS),
        Err(script::Ended::Line(number)) => {
            eprintln!(rt; "line {number} is no line of a case")?;
            Ok(ExitCode::from(1))
        }
        _ => Err(io::Error::from(AllocError)),
    }
}
