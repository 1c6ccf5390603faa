//! Runs a session over the real files and prints its replies.
#![tactic(auto)]

mod ending;
mod words;

use slon_main::{Status, slon_main};
use slon_system::{RealFiles, RealShelf, RealSink};
use std::io::{BufWriter, IsTerminal};
use std::mem;
use std::process::ExitCode;

fn main(rt: HostRuntime) -> ExitCode {
    let Ok(words) = words::given(&rt) else {
        return ExitCode::from(Status::NoMemory.number());
    };
    let printed = rt.stdout();
    let held_back = if printed.is_terminal() {
        0
    } else {
        words::held_back(&rt, words.as_slice())
    };
    let Ok(writer) = BufWriter::with_capacity(rt.alloc(), held_back, printed) else {
        return ExitCode::from(Status::NoMemory.number());
    };
    let mut files = RealFiles::new(rt.alloc(), &rt);
    let mut shelf = RealShelf::new(rt.alloc());
    let mut out = RealSink::new(writer);
    let ended = slon_main(
        rt.alloc(),
        words.as_slice(),
        &mut files,
        &mut shelf,
        &mut out,
    );
    let status = ending::last_status(ended.status, out.flush());
    // The stores are memory, which goes back to the system with the process. To let go of every row takes time.
    mem::forget(ended.cluster);
    ExitCode::from(status.number())
}
