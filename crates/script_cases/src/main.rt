//! Runs the scripts of the data folder over journals in memory, and prints what each run prints.
#![tactic(auto)]

mod cases;
mod peers;
mod runs;
mod scripts;

use crate::cases::print_case;
use std::{fs, io};

fn main(rt: HostRuntime) -> io::Result<()> {
    let text = fs::read_to_string(&rt, "scripts.txt")?;
    for piece in text.as_str().split("== ") {
        if let Some((name, scripts)) = piece.split_once('\n') {
            println!(rt; "== {name}")?;
            print_case(&rt, scripts)?;
        }
    }
    Ok(())
}
