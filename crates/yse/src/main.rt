//! The program: real files, streams and gates around the top call, whose status is the exit status.
//!
//! ```
//! $ yse run c17.bench c17.stim
//! cycle 22 23
//! 1 10
//! 2 00
//! 3 xx
//! ```
#![tactic(auto)]

#[cfg(test)]
mod tests;

use edge_io::{HostFiles, HostSink};
use limits::MAX_WORKERS;
use machine_run::count_gates;
use seen_list::Memory;
use std::process::ExitCode;
use std::{env, io};
use yse_top::{ended, exit_code, out_of_memory};

fn main(rt: HostRuntime) -> ExitCode {
    let mut files = HostFiles::new(&rt);
    let mut out = HostSink::new(rt.stdout());
    let mut err = HostSink::new(rt.stderr());
    match count_gates(rt.alloc(), MAX_WORKERS as usize) {
        Ok(mut gates) => ended(
            &rt,
            rt.alloc(),
            read_words(&rt),
            &mut files,
            &mut out,
            &mut err,
            gates.as_mut_slice(),
        ),
        Err(Memory) => exit_code(out_of_memory(&mut err)),
    }
}

/// The words of the command line, without the program's name.
fn read_words(rt: &HostRuntime) -> io::Result<Vec<String>> {
    let words = env::args(rt)?.skip(1).collect(rt.alloc())?;
    Ok(words)
}
