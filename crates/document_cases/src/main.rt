//! Asks the readers of documents and outlines and the writer of texts the cases of the data folder, and prints a line a
//! case.
#![tactic(auto)]

mod documents;
mod outlines;

use case_lines::{cases, printed};
use field_text::NoMemory;
use std::alloc::{AllocError, Global};
use std::{fs, io};

/// Prints the parts of documents and outlines.
struct Printer;

/// What the cases of a file ask.
#[derive(Clone, Copy)]
enum Subject {
    Document,
    WrittenText,
    Outline,
}

static SUBJECTS: [(&str, Subject); 3] = [
    ("documents", Subject::Document),
    ("written_texts", Subject::WrittenText),
    ("outlines", Subject::Outline),
];

fn answer(alloc: Global, subject: Subject, case: &str) -> Result<String, NoMemory> {
    match subject {
        Subject::Document => documents::answer(alloc, case),
        Subject::WrittenText => documents::answer_written(alloc, case),
        Subject::Outline => outlines::answer(alloc, case),
    }
}

fn line_of(alloc: Global, subject: Subject, case: &str) -> Result<String, AllocError> {
    let Ok(answer) = answer(alloc, subject, case) else {
        return Err(AllocError);
    };
    printed(alloc, answer.as_str())
}

fn print_cases(rt: &HostRuntime, name: &str, subject: Subject) -> io::Result<()> {
    let text = fs::read_to_string(rt, name)?;
    let cases = cases(rt.alloc(), text.as_str())?;
    for (number, case) in cases.iter().enumerate() {
        let line = line_of(rt.alloc(), subject, case)?;
        println!(rt; "{name} {number}: {line}")?;
    }
    Ok(())
}

fn main(rt: HostRuntime) -> io::Result<()> {
    for (name, subject) in SUBJECTS {
        print_cases(&rt, name, subject)?;
    }
    Ok(())
}
