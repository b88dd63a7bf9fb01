//! The program `sandvec`: it makes the standard streams, hands them with the words to the top call, and ends with its answer.
//!
//! Nothing is decided here. Where the system does not give the words as texts, or gives more than a `u32` counts with one to spare,
//! nothing is called and the status is 2.
#![tactic(auto)]

use std::env;
use std::process::ExitCode;
use vec_top::sandvec_alone;
use vx_io::{StdSink, StdSource};

/// So many words are too many: their number and one more is none of a `u32`.
const MOST_WORDS: usize = 4_294_967_295;

fn main(rt: HostRuntime) -> ExitCode {
    let Ok(arguments) = env::args(&rt) else {
        return ExitCode::from(2);
    };
    let Ok(words) = arguments.skip(1).collect::<Vec<String>>(rt.alloc()) else {
        return ExitCode::from(6);
    };
    if words.len() >= MOST_WORDS {
        return ExitCode::from(2);
    }
    let mut input = StdSource::new(rt.stdin());
    let mut out = StdSink::new(rt.stdout());
    let mut err = StdSink::new(rt.stderr());
    ExitCode::from(sandvec_alone(rt.alloc(), words.as_slice(), &mut input, &mut out, &mut err))
}
