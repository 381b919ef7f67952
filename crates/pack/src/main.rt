//! `pack`: decides whether boxes fit a container and checks documents, over the streams of the
//! process.
#![tactic(auto)]

mod input;

use input::BufferedSource;
use pack_command::run;
use pack_streams::{Sink, StdSink, write_all};
use std::io::BufReader;
use std::process::ExitCode;
use std::{env, io};
use work_share::NoGate;

fn main(rt: HostRuntime) -> ExitCode {
    let alloc = rt.alloc();
    let mut out = StdSink::new(rt.stdout());
    let mut err = StdSink::new(rt.stderr());
    // `check` reads a byte at a time, which is no system call each behind a buffer.
    let mut input = match BufReader::new(alloc, rt.stdin()) {
        Ok(reader) => BufferedSource::new(reader),
        Err(_) => return out_of_memory(&mut err),
    };
    let words = match command_words(&rt) {
        Ok(words) => words,
        Err(error) if error.kind() == io::ErrorKind::OutOfMemory => return out_of_memory(&mut err),
        // A word that isn't UTF-8 is no job, as no words are.
        Err(_) => Vec::new(alloc),
    };
    ExitCode::from(run(&rt, alloc, &words, &mut input, &mut out, &mut err, &NoGate))
}

// The words after the program's name.
fn command_words(rt: &HostRuntime) -> io::Result<Vec<String>> {
    let mut words = Vec::new(rt.alloc());
    for word in env::args(rt)?.skip(1) {
        words.push(word)?;
    }
    Ok(words)
}

// Reports that memory was refused.
fn out_of_memory<E: Sink>(err: &mut E) -> ExitCode {
    // Nothing is left to report where this fails.
    let _told = write_all(err, b"pack: out of memory\n");
    ExitCode::from(6)
}
