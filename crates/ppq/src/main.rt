//! The program: runs a script over a bulk-parallel external priority queue, or simulates an agenda over one.
//!
//! `main` hands the real outside in, reports on standard error and ends with the status. The device is checked: a
//! block that gives back other bytes than were written is a failed block. It is no file that the library was asked
//! for: neither the script, the agenda nor a record file.
//!
//! The roster has 16 places. Place i of the first 12 has a handler that counts, relays or forks, as i % 3 is 0, 1 or
//! 2; the other four have handlers that retire at a word of 0.
#![tactic(auto)]

use ppq_cli::{
    CheckedRack, CountHandler, DirLibrary, End, FileRack, ForkHandler, Handler, Host,
    MortalHandler, NamedFiles, OpenGate, RelayHandler, StdSink, report_end, run_and_report,
    words_of,
};
use std::alloc::AllocError;
use std::process::ExitCode;

// Does what the arguments say, reports on the sink for errors, and returns the status; unless an allocation for the
// roster fails, with which nothing was done.
fn run<H: Host + AllocGlobal>(
    rt: &H,
    words: &[String],
    errors: &mut StdSink,
) -> Result<u8, AllocError>
where
    H::Dir: Send,
{
    let alloc = rt.alloc();
    let mut roster: Vec<Option<Box<dyn Handler + Send>>> = Vec::new(alloc);
    'places: for place in 0..16u32 {
        let handler: Box<dyn Handler + Send> = match place % 3 {
            _ if place >= 12 => Box::new(alloc, MortalHandler::new())?,
            0 => Box::new(alloc, CountHandler::new())?,
            1 => Box::new(alloc, RelayHandler::new())?,
            _ => Box::new(alloc, ForkHandler::new())?,
        };
        roster.push(Some(handler))?;
    }
    let named = NamedFiles::new();
    Ok(run_and_report(
        rt,
        alloc,
        words,
        roster,
        &mut DirLibrary::naming(&named),
        &mut CheckedRack::new(FileRack::sparing(&named)),
        &OpenGate,
        &mut StdSink::out(),
        errors,
    ))
}

fn main(rt: HostRuntime) -> ExitCode {
    let mut errors = StdSink::err();
    let ran = match words_of(&rt) {
        Ok(words) => run(&rt, &words, &mut errors).map_err(|_| End::Memory),
        Err(end) => Err(end),
    };
    let status = match ran {
        Ok(status) => status,
        Err(end) => report_end(&rt, &end, &mut errors),
    };
    ExitCode::from(status)
}
