//! The command `nimarc`: real files and streams around the top call.
#![tactic(auto)]

use arc_base::{HostFiles, HostSink, HostSource};
use arc_top::{Answer, nimarc, put_report};
use std::alloc::Global;
use std::env;
use std::io::ErrorKind;
use std::process::ExitCode;

// The words after the program's name. A word that is no text is no command.
fn words_of(rt: &HostRuntime, alloc: Global) -> Result<Vec<String>, Answer> {
    let mut words = Vec::new(alloc);
    match env::args(rt) {
        Ok(args) => {
            for word in args.skip(1) {
                if words.push(word).is_err() {
                    return Err(Answer::Memory);
                }
            }
            Ok(words)
        }
        Err(error) => {
            if error.kind() == ErrorKind::OutOfMemory {
                Err(Answer::Memory)
            } else {
                Err(Answer::Usage)
            }
        }
    }
}

fn run(rt: &HostRuntime) -> Answer {
    let alloc = rt.alloc();
    let mut err = HostSink::new(rt.stderr());
    let words = match words_of(rt, alloc) {
        Ok(words) => words,
        Err(answer) => {
            put_report(&mut err, &[], &answer);
            return answer;
        }
    };
    let mut files = HostFiles::new(rt);
    let mut input = HostSource::new(rt.stdin());
    let mut out = HostSink::new(rt.stdout());
    nimarc(
        alloc,
        words.as_slice(),
        &mut files,
        &mut input,
        &mut out,
        &mut err,
    )
}

fn main(rt: HostRuntime) -> ExitCode {
    ExitCode::from(run(&rt).status())
}
