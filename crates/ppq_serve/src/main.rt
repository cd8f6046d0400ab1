//! A server of one priority queue: requests on standard input, answers on standard output.
//!
//! `main` hands the real outside in, reports on standard error and ends with the status. The device is checked: a
//! block that gives back other bytes than were written is a failed block.
#![tactic(auto)]

use ppq_checked::CheckedRack;
use ppq_edge::{FileRack, StdSink, StdSource};
use ppq_serve_cli::{OpenGate, report_outcome, serve_and_report, words_of};
use std::process::ExitCode;

fn main(rt: HostRuntime) -> ExitCode {
    let mut errors = StdSink::err();
    let status = match words_of(&rt) {
        Ok(words) => serve_and_report(
            &rt,
            rt.alloc(),
            &words,
            &mut StdSource::new(rt.reader()),
            &mut CheckedRack::new(FileRack::new()),
            &OpenGate,
            &mut StdSink::out(),
            &mut errors,
        ),
        Err(outcome) => report_outcome(&rt, &outcome, &mut errors),
    };
    ExitCode::from(status)
}
