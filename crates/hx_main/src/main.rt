//! The program `hx`: the words of the command line, standard input and standard output. Nothing goes to standard error.
#![tactic(auto)]

use hx_app::run;
use hx_cli::words_given;
use hx_io::{RealGate, StdSink, StdSource};
use std::process::ExitCode;
use std::thread;

/// The exit status where memory for the words or for the command's thread was wanting.
const OUT_OF_MEMORY: u8 = 7;

/// The command runs in a thread of its own, which has its stack as a whole or is not made. The first one gets its stack
/// where it is written to, and where the address space is used up then the system ends the program by a signal.
fn main(rt: HostRuntime) -> ExitCode {
    let command = move || {
        let Ok(words) = words_given(&rt) else {
            return OUT_OF_MEMORY;
        };
        let mut source = StdSource::new(rt.stdin());
        let mut sink = StdSink::new(rt.stdout());
        run(&rt, rt.alloc(), &words, &mut source, &mut sink, &RealGate).status
    };
    match thread::spawn(&rt, command) {
        Ok(child) => ExitCode::from(child.join(&rt)),
        Err(_) => ExitCode::from(OUT_OF_MEMORY),
    }
}
