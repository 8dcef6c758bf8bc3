//! Runs operation files of a module over a heap and prints a report, or prints a module and its code.
//! `docs/LANGUAGE.md` tells the files, and `docs/FORMATS.md` what is printed.
#![tactic(auto)]

#[cfg(test)]
mod emit_tests;
#[cfg(test)]
mod heap_tests;
#[cfg(test)]
mod report_tests;
#[cfg(test)]
mod run_tests;
#[cfg(test)]
mod tests;

use dl_command::{Words, WordsFault, domlock, exit_code, status_line};
use dl_io::{RealFiles, RealSink};
use dl_machine::Open;
use dl_text::Out;
use std::io::ErrorKind;
use std::process::ExitCode;

// The words behind the program's name. A word that is no UTF-8 is no good word.
fn read_words(rt: &HostRuntime) -> Result<Words, WordsFault> {
    let args = match std::env::args(rt) {
        Ok(args) => args,
        Err(error) => return Err(fault_of_args(error.kind())),
    };
    let mut items = Vec::new(rt.alloc());
    for (i, word) in args.enumerate() {
        if i > 0 && items.push(word).is_err() {
            return Err(WordsFault::Memory);
        }
    }
    Ok(Words::new(items))
}

// Why the words could not be taken from the system.
fn fault_of_args(kind: ErrorKind) -> WordsFault {
    match kind {
        ErrorKind::InvalidData => WordsFault::Usage,
        _ => WordsFault::Memory,
    }
}

fn main(rt: HostRuntime) -> ExitCode {
    let status = match read_words(&rt) {
        Ok(words) => {
            let mut files = RealFiles::new(&rt);
            let mut sink = RealSink::new(rt.stdout());
            domlock(&rt, rt.alloc(), &words, &mut files, &mut sink, &Open).status
        }
        Err(fault) => fault.status(),
    };
    let mut out = Out::new();
    let mut errors = RealSink::new(rt.stderr());
    let _ = status_line(&status, &mut out, &mut errors);
    ExitCode::from(exit_code(&status))
}
