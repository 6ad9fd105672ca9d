//! Asks the readers of lists and the plans of updates the cases of the data folder, and prints a line for each.
#![tactic(auto)]

mod cases;
mod lists;
mod plans;

use std::{fs, io};

fn main(rt: HostRuntime) -> io::Result<()> {
    let alloc = rt.alloc();
    let text = fs::read_to_string(&rt, "lists.txt")?;
    for (name, body) in cases::cases(alloc, text.as_str())? {
        let line = lists::form_list(alloc, body)?;
        println!(rt; "{name}: {line}")?;
    }
    let text = fs::read_to_string(&rt, "manifests.txt")?;
    for (name, body) in cases::cases(alloc, text.as_str())? {
        let line = lists::manifest(alloc, body)?;
        println!(rt; "{name}: {line}")?;
    }
    for (root, entry, count) in lists::LENGTHS {
        let line = lists::length(alloc, root, entry, count)?;
        println!(rt; "{count} of {entry}: {line}")?;
    }
    let text = fs::read_to_string(&rt, "plans.txt")?;
    for line in text.as_str().lines() {
        let planned = plans::planned(alloc, line)?;
        println!(rt; "{line} => {planned}")?;
    }
    Ok(())
}
