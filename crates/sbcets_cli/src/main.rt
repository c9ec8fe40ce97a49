//! The program: the streams and files of the system, and the call that does all.
#![tactic(auto)]

use sb_outside::{HostFiles, Sink, StdSink, StdSource};
use sbcets_core::{Outcome, finish, sbcets};
use std::alloc::AllocError;
use std::process::ExitCode;
use std::{env, io};

fn main(rt: HostRuntime) -> ExitCode {
    let mut errors = StdSink::new(rt.stderr());
    let outcome = match words(&rt) {
        Ok(words) => run(&rt, &words, &mut errors),
        Err(_) => finish(&mut errors, Outcome::Memory),
    };
    ExitCode::from(outcome.status())
}

// The words after the program's name. Where one is not UTF-8 there are none, which is no command.
fn words(rt: &HostRuntime) -> Result<Vec<String>, AllocError> {
    let mut words = Vec::new(rt.alloc());
    match env::args(rt) {
        Ok(args) => {
            for word in args.skip(1) {
                words.push(word)?;
            }
            Ok(words)
        }
        Err(error) if error.kind() == io::ErrorKind::InvalidData => Ok(words),
        Err(_) => Err(AllocError),
    }
}

fn run<E: Sink>(rt: &HostRuntime, words: &[String], errors: &mut E) -> Outcome {
    let mut files = HostFiles::new(rt);
    let mut input = StdSource::new(rt.stdin());
    let mut output = StdSink::new(rt.stdout());
    let (outcome, _image) = sbcets(
        rt.alloc(),
        words,
        &mut files,
        &mut input,
        &mut output,
        errors,
    );
    outcome
}
