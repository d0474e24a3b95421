//! tikzsvg: compiles TikZ pictures to SVG documents.
//!
//! [`tk_program::run`] is the whole program over any shelf of files and any two sinks. What stands
//! here hands it those of the host.
#![tactic(auto)]

use std::env;
use std::process::ExitCode;
use tk_io::{ErrSink, FileShelf, OutSink};
use tk_program::{own_words, run, without_words};

fn main(rt: HostRuntime) -> ExitCode {
    let mut err = ErrSink::new(rt.stderr());
    let status = match own_words(rt.alloc(), env::args(&rt)) {
        Ok(words) => {
            let mut shelf = FileShelf::new(&rt);
            let mut out = OutSink::new(&rt);
            run(rt.alloc(), words.as_slice(), &mut shelf, &mut out, &mut err)
        }
        Err(cause) => without_words(cause, &mut err),
    };
    ExitCode::from(status)
}
