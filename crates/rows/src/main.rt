//! Runs rows through the public calls: what is given in a row, and what the call is to give.
//!
//! The words are the names of files of rows. docs/ROWS.md has their form. What differs is said, and is status 1.
#![tactic(auto)]

mod check;
mod commands;
mod escapes;
mod given;
mod machine;
mod parsed;
mod programs;
mod report;
mod rows;
mod runs;
mod text;
mod trees;
mod visits;

use crate::report::Report;
use crate::rows::run_rows;
use crate::text::Text;
use arc_base::{HostSink, put_all};
use std::alloc::Global;
use std::process::ExitCode;
use std::{env, fs, io};

/// A file or a stream failed, or there was no memory for what is said.
struct Failed;

impl From<io::Error> for Failed {
    fn from(_: io::Error) -> Self {
        Failed
    }
}

impl From<arc_base::Failed> for Failed {
    fn from(_: arc_base::Failed) -> Self {
        Failed
    }
}

// Runs the rows of a file with this text.
fn report_of<'a>(alloc: Global, file: &'a str, text: &str) -> Report<'a> {
    let mut report = Report {
        file,
        lines: Text::new(alloc, false),
        count: 0,
        differs: false,
    };
    run_rows(alloc, text, &mut report);
    report.end();
    report
}

// Runs the rows of the files that are named, and says what differs and how many rows each has.
fn run(rt: &HostRuntime) -> Result<bool, Failed> {
    let mut out = HostSink::new(rt.stdout());
    let mut differs = false;
    for word in env::args(rt)?.skip(1) {
        let text = fs::read_to_string(rt, word.as_str())?;
        let report = report_of(rt.alloc(), word.as_str(), text.as_str());
        put_all(&mut out, report.lines.as_slice())?;
        differs = differs || report.differs;
    }
    Ok(differs)
}

fn main(rt: HostRuntime) -> ExitCode {
    match run(&rt) {
        Ok(false) => ExitCode::from(0),
        Ok(true) => ExitCode::from(1),
        Err(Failed) => ExitCode::from(2),
    }
}
