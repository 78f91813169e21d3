//! The program `rambo`: from scripts to outcome texts, from outcome texts to verdicts, and from the commands of one
//! client or of many to replies.
#![tactic(auto)]

mod command;
mod filing;
mod loopback;

use command::command;
use log::info;
use rambo_atomic::Wrapped;
use rambo_serving::Ending;
use rambo_telling::{tell, tell_no_text};
use rambo_text::ReplayFault;
use std::io;
use std::io::ErrorKind;
use std::process::ExitCode;

fn main(rt: HostRuntime) -> ExitCode {
    let mut errors = Wrapped::new(rt.stderr());
    let ending = match words(&rt) {
        Ok(words) => {
            let mut reader = Wrapped::new(rt.stdin());
            let writer = Wrapped::new(rt.stdout());
            let (ending, _writer) = command(
                &rt,
                rt.alloc(),
                words.as_slice(),
                &mut reader,
                writer,
                &mut errors,
            );
            ending
        }
        Err(fault) if fault.kind() == ErrorKind::InvalidData => {
            Ending::of(tell_no_text(&mut errors))
        }
        Err(_) => Ending::of(tell(ReplayFault::Memory, &mut errors)),
    };
    if let Some(steps) = ending.trace {
        info!(&rt; "the trace has {steps} steps");
    }
    ExitCode::from(ending.status)
}

// The words after the program's name.
fn words(rt: &HostRuntime) -> io::Result<Vec<String>> {
    Ok(std::env::args(rt)?.skip(1).collect(rt.alloc())?)
}
