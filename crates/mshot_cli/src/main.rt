// The program: real input and output, the words, and the exit status.
#![tactic(auto)]

use ms_io::{NoSink, StdSink, StdSource};
use mshot::{Status, mshot};
use std::env;
use std::io::ErrorKind;
use std::process::ExitCode;

/// The status that the process ends with.
fn exit_code(status: Status) -> u8 {
    match status {
        Status::Done => 0,
        Status::SomeRefused => 1,
        Status::Usage => 2,
        Status::ReadFault => 3,
        Status::WriteFault => 4,
        Status::LogFault => 5,
        Status::TooLong => 6,
        Status::NoMemory => 7,
    }
}

/// The words after the program's name. One that isn't UTF-8 has none of the shapes.
fn words(rt: &HostRuntime) -> Result<Vec<String>, Status> {
    match env::args(rt) {
        Ok(args) => match args.skip(1).collect(rt.alloc()) {
            Ok(words) => Ok(words),
            Err(_) => Err(Status::NoMemory),
        },
        Err(e) if e.kind() == ErrorKind::OutOfMemory => Err(Status::NoMemory),
        Err(_) => Err(Status::Usage),
    }
}

/// Whether the words ask for the log.
fn ask_for_log(words: &[String]) -> bool {
    match words.first() {
        Some(word) => word.as_str() == "log",
        None => false,
    }
}

/// Serves the script on standard input.
fn run(rt: &HostRuntime, words: &Vec<String>) -> Status {
    let mut input = StdSource::new(rt.stdin());
    let mut output = StdSink::new(rt.stdout());
    if ask_for_log(words.as_slice()) {
        let mut log = StdSink::new(rt.stderr());
        mshot(rt.alloc(), words, &mut input, &mut output, &mut log)
    } else {
        mshot(rt.alloc(), words, &mut input, &mut output, &mut NoSink)
    }
}

fn main(rt: HostRuntime) -> ExitCode {
    let status = match words(&rt) {
        Ok(words) => run(&rt, &words),
        Err(status) => status,
    };
    if status == Status::Usage {
        let _ = rt.eprintln("usage: mshot [log] run");
    }
    ExitCode::from(exit_code(status))
}
