//! The simulator over the standard streams: it reads a script from the standard input and writes to the standard
//! output, by its words the trace of the run or the printed form. The drivers of devices run on threads. The exit status says how
//! the call ended.
#![tactic(auto)]

use dev_drivers::StdSpawner;
use std::alloc::Global;
use std::env;
use std::io::ErrorKind;
use std::process::ExitCode;
use std::rt::Env;
use tk_ports::{StdSink, StdSource};
use tk_run::{Status, program};
use tk_types::OutOfMemory;

/// The arguments behind the program's name. Where one of them isn't text there are none, and so no command.
fn words<R: Env + Alloc<A = Global>>(rt: &R) -> Result<Vec<String>, OutOfMemory> {
    let mut words = Vec::new(rt.alloc());
    match env::args(rt) {
        Ok(arguments) => {
            for word in arguments.skip(1) {
                words.push(word)?;
            }
            Ok(words)
        }
        Err(error) if error.kind() == ErrorKind::OutOfMemory => Err(OutOfMemory),
        Err(_) => Ok(words),
    }
}

fn main(rt: HostRuntime) -> ExitCode {
    let Ok(words) = words(&rt) else {
        return ExitCode::from(Status::NoMemory.number());
    };
    let mut source = StdSource::new(&rt);
    let mut sink = StdSink::new(&rt);
    let mut spawner = StdSpawner::new();
    let (status, _record) = program(
        &rt,
        rt.alloc(),
        &words,
        &mut source,
        &mut sink,
        &mut spawner,
    );
    ExitCode::from(status.number())
}
