//! The program `routes`: looks up, prints, compares, reduces, checks and describes tables of IP networks.
//!
//! The library `route_tables` does the work.
#![tactic(auto)]

mod commands;
mod failure;
mod progress;
mod session;
mod status;

use crate::commands::carry_out;
use crate::failure::Failure;
use crate::session::Session;
use crate::status::Status;
use route_tables::arguments::{Invocation, parse};
use route_tables::commands::printer::Printer;
use std::env::{self, Env, FillError};
use std::io::{self, BufWriter};
use std::process::ExitCode;
use std::str;

/// Returns the number of the first argument that is not UTF-8, after the name of the program.
fn first_not_utf8(rt: &impl Env) -> Option<usize> {
    let mut bytes = [0; 4096];
    for number in 1..usize::MAX {
        match rt.arg(number, &mut bytes) {
            Ok(len) if str::from_utf8(&bytes[..len]).is_err() => return Some(number),
            Ok(_) | Err(FillError::TooLong) => {}
            Err(FillError::NotPresent) => return None,
        }
    }
    None
}

/// Returns the words of the command line after the name of the program.
fn arguments(rt: &HostRuntime) -> Result<Vec<String>, Failure> {
    match env::args(rt) {
        Ok(arguments) => Ok(arguments.skip(1).collect(rt.alloc())?),
        Err(_) => match first_not_utf8(rt) {
            Some(number) => {
                let _ = eprintln!(rt; "routes: argument {number}: not UTF-8");
                Err(Failure::Reported)
            }
            None => Err(Failure::Memory),
        },
    }
}

/// Carries out the command of the command line, and sets the status of what it finds.
fn run(rt: &HostRuntime, status: &mut Status) -> Result<(), Failure> {
    let arguments = arguments(rt)?;
    let words: Vec<&str> = arguments
        .iter()
        .map(|word| word.as_str())
        .collect(rt.alloc())?;
    match parse(words.as_slice(), rt.alloc()) {
        Ok(invocation) => run_invocation(rt, &invocation, status),
        Err(error) => {
            // a help text that cannot be written is no error
            let _ = error.print(rt);
            if error.use_stderr() {
                return Err(Failure::Reported);
            }
            Ok(())
        }
    }
}

/// Carries out a command, and sets the status of what it finds.
fn run_invocation(
    rt: &HostRuntime,
    invocation: &Invocation<'_>,
    status: &mut Status,
) -> Result<(), Failure> {
    let options = invocation.options;
    let out = BufWriter::new(rt.alloc(), io::writer(rt))?;
    let mut out = Printer::new(options.format, rt.alloc(), out);
    if let Some(lists) = invocation.lists {
        out.print_lists(lists);
    }
    let done = carry_out(Session { rt, options }, invocation, &mut out, status);
    // what was found before an error is printed too
    let flushed = out.flush();
    done?;
    flushed?;
    out.finish()?;
    Ok(out.flush()?)
}

fn main(rt: HostRuntime) -> ExitCode {
    let mut status = Status::Good;
    match run(&rt, &mut status) {
        Ok(()) | Err(Failure::ClosedOutput) => {}
        Err(failure) => {
            status = Status::Failed;
            failure.report(&rt);
        }
    }
    ExitCode::from(status as u8)
}
