//! The program: runs the command line over the current directory and prints the report.
#![tactic(auto)]

use lean_io::{DirFolder, StdSink};
use lean_top::{Status, lean_main};
use std::alloc::{AllocError, Global};
use std::env::{self, Env};
use std::io::ErrorKind;
use std::process::ExitCode;

fn main(rt: HostRuntime) -> ExitCode {
    let mut words = Vec::new(rt.alloc());
    if read_words(&rt, &mut words).is_err() {
        return ExitCode::from(Status::NoMemory.code());
    }
    let mut folder = DirFolder::new(rt);
    let mut out = StdSink::new(rt);
    ExitCode::from(lean_main(&rt, rt.alloc(), &words, &mut folder, &mut out).code())
}

// The words behind the program's name. Where one is no UTF-8 there are none, which the program doesn't take either.
fn read_words<R: Env + AllocGlobal>(rt: &R, words: &mut Vec<String>) -> Result<(), AllocError> {
    match env::args(rt) {
        Ok(args) => {
            for word in args.skip(1) {
                words.push(word)?;
            }
            Ok(())
        }
        Err(e) if e.kind() == ErrorKind::OutOfMemory => Err(AllocError),
        Err(_) => Ok(()),
    }
}
