//! Reads a form from the standard input and prints what it asks, or why it is no form. The status is 0 for a form and 1
//! for anything else.
#![tactic(auto)]

mod accepted;
mod place;
mod refused;
mod report;

use crate::report::report;
use std::alloc::AllocError;
use std::io;
use std::io::{Read, Write};
use std::process::ExitCode;

fn checked(rt: HostRuntime) -> io::Result<bool> {
    let alloc = rt.alloc();
    let mut document = Vec::new(alloc);
    let mut input = rt.stdin();
    input.read_to_end(&mut document)?;
    let Ok(report) = report(alloc, document.as_slice()) else {
        return Err(AllocError)?;
    };
    let mut output = io::writer(&rt);
    output.write_all(report.text.as_slice())?;
    output.flush()?;
    Ok(report.is_form)
}

fn main(rt: HostRuntime) -> ExitCode {
    match checked(rt) {
        Ok(true) => ExitCode::from(0),
        Ok(false) => ExitCode::from(1),
        Err(error) => {
            let _ = eprintln!(rt; "form_check: {error}");
            ExitCode::from(2)
        }
    }
}
