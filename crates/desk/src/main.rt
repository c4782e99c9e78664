//! The transit assignment desk: a program over the files of a folder.
#![tactic(auto)]

mod assigning;
mod checking;
mod command;
mod fault_text;
mod feeding;
mod gen_words;
mod generated_city;
mod generating;
mod inputs;
mod job_cause;
mod known_words;
mod pieces;
mod run;
mod solving;
mod status;
#[cfg(test)]
mod tests;
mod verdict_lines;

use desk_io::{Name, RealFolder, RealStream};
use fault_text::write_fault_text;
use run::run;
use status::{Cause, Status, UsageFault};
use std::io::ErrorKind;
use std::process::ExitCode;
use std::{env, io};

fn main(rt: HostRuntime) -> ExitCode {
    let alloc = rt.alloc();
    let words = words(&rt);
    let mut err = RealStream::new(rt.stderr());
    let status = match words {
        Ok(words) => {
            let mut out = RealStream::new(rt.stdout());
            let mut folder = RealFolder::new(rt);
            run(alloc, &words, &mut folder, &mut out, &mut err)
        }
        Err(error) => {
            let cause = cause_without_words(error);
            let _ = write_fault_text(&mut err, &cause);
            Status::of(cause)
        }
    };
    ExitCode::from(status.code)
}

// The program's arguments, without its own name.
fn words(rt: &HostRuntime) -> io::Result<Vec<Name>> {
    let mut words = Vec::new(rt.alloc());
    for word in env::args(rt)?.skip(1) {
        words.push(Name::new(word))?;
    }
    Ok(words)
}

// Why there are no words: there is no memory for them, or one is no text.
fn cause_without_words(error: io::Error) -> Cause {
    match error.kind() {
        ErrorKind::OutOfMemory => Cause::NoMemory,
        _ => Cause::Usage(UsageFault::Words),
    }
}
