//! The program `inspect`: it makes the standard streams, hands them with the words to the questions' call, and ends with its answer.
//!
//! It is an instrument for tests and measuring and no part of `sandvec`. Nothing is decided here. Where the system does not give the
//! words as texts, nothing is called and the status is 2.
#![tactic(auto)]

use std::env;
use std::process::ExitCode;
use vec_inspect::inspect_alone;
use vx_io::{StdSink, StdSource};

fn main(rt: HostRuntime) -> ExitCode {
    let Ok(arguments) = env::args(&rt) else {
        return ExitCode::from(2);
    };
    let Ok(words) = arguments.skip(1).collect::<Vec<String>>(rt.alloc()) else {
        return ExitCode::from(6);
    };
    let mut input = StdSource::new(rt.stdin());
    let mut out = StdSink::new(rt.stdout());
    let mut err = StdSink::new(rt.stderr());
    ExitCode::from(inspect_alone(rt.alloc(), words.as_slice(), &mut input, &mut out, &mut err))
}
