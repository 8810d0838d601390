//! Judges scripts of calls: each line of a file is a call with its reply beside it. Each row that
//! doesn't hold is printed, and at the end how many hold. A call that lacks memory is made once
//! more: `tests/refusals library` refuses it.
#![tactic(auto)]

mod beside;
mod checks;
mod deques;
mod encodings;
mod evidences;
mod given;
mod logs;
mod programs;
mod reading;
mod report;
mod scripts;
mod searches;
mod shares;
mod splits;

use report::Report;
use scripts::judge_file;
use std::process::ExitCode;
use std::sync::Wait;
use std::thread::Threads;
use std::{env, fs, io};

fn main(rt: HostRuntime) -> ExitCode {
    match judge(&rt, &rt) {
        Ok(true) => ExitCode::SUCCESS,
        Ok(false) => ExitCode::FAILURE,
        Err(error) => {
            // Where standard error can't be written either, the exit status tells it alone.
            let _ = rt.eprintln(format_args!("error: {error}"));
            ExitCode::FAILURE
        }
    }
}

/// Judges each file that the words name, and prints how many rows hold, and how many don't. Answers
/// whether all rows hold.
fn judge(rt: &HostRuntime, threads: &(impl Threads + Wait + Sync)) -> io::Result<bool> {
    let words: Vec<String> = env::args(rt)?.collect(rt.alloc())?;
    let mut report = Report::new(rt.alloc());
    for path in words.iter().skip(1) {
        judge_path(rt, threads, path, &mut report)?;
    }
    tell(rt, &report)
}

fn judge_path(
    rt: &HostRuntime,
    threads: &(impl Threads + Wait + Sync),
    path: &str,
    report: &mut Report,
) -> io::Result<()> {
    let text = fs::read_to_string(rt, path)?;
    judge_file(threads, rt.alloc(), path, &text, report)?;
    print!(rt; "{}", report.failures.reply())?;
    report.forget();
    Ok(())
}

/// Prints how many rows hold, and how many don't. Answers whether all hold.
fn tell(rt: &HostRuntime, report: &Report) -> io::Result<bool> {
    if report.missed > 0 {
        println!(rt; "{} rows don't hold", report.missed)?;
        return Ok(false);
    }
    if report.held > 0 {
        println!(rt; "{} rows hold", report.held)?;
    }
    Ok(true)
}
