//! Asks the layers of expressions, forms, values and answers the cases of the data folder, and prints a line a case.
#![tactic(auto)]

mod answers;
mod expressions;
mod forms;
mod printing;
mod tables;
mod values;
mod words;

use crate::answers::Filling;
use case_lines::{bytes_of, cases, printed};
use field_text::NoMemory;
use std::alloc::{AllocError, Global};
use std::{fs, io};

/// What the cases of a file ask.
#[derive(Clone, Copy)]
enum Subject {
    Expression,
    Itemset,
    Form,
    WholeForm,
    Order,
    Value,
}

static SUBJECTS: [(&str, Subject); 6] = [
    ("expressions", Subject::Expression),
    ("itemsets", Subject::Itemset),
    ("forms", Subject::Form),
    ("whole_forms", Subject::WholeForm),
    ("orders", Subject::Order),
    ("values", Subject::Value),
];

fn answer(alloc: Global, subject: Subject, case: &str) -> Result<String, NoMemory> {
    match subject {
        Subject::Expression => expressions::answer(alloc, case),
        Subject::Itemset => expressions::answer_itemset(alloc, case),
        Subject::Form => forms::answer(alloc, case),
        Subject::WholeForm => forms::answer_whole(alloc, case),
        Subject::Order => forms::answer_order(alloc, case),
        Subject::Value => values::answer(alloc, case),
    }
}

fn line_of(alloc: Global, answer: Result<String, NoMemory>) -> Result<String, AllocError> {
    match answer {
        Ok(answer) => printed(alloc, answer.as_str()),
        Err(NoMemory) => Err(AllocError),
    }
}

fn print_cases(rt: &HostRuntime, name: &str, subject: Subject) -> io::Result<()> {
    let text = fs::read_to_string(rt, name)?;
    let cases = cases(rt.alloc(), text.as_str())?;
    for (number, case) in cases.iter().enumerate() {
        let line = line_of(rt.alloc(), answer(rt.alloc(), subject, case))?;
        println!(rt; "{name} {number}: {line}")?;
    }
    Ok(())
}

/// The form of a file, to be filled; none where it is no form.
fn begun(rt: &HostRuntime, file: &str) -> io::Result<Option<Filling>> {
    let document = fs::read_to_string(rt, file)?;
    let document = bytes_of(rt.alloc(), document.as_str())?;
    Ok(Filling::begun(rt.alloc(), document.as_slice()))
}

fn answer_of(
    alloc: Global,
    filling: &mut Option<Filling>,
    case: &str,
) -> Result<String, AllocError> {
    match filling {
        Some(filling) => line_of(alloc, filling.answer(alloc, case)),
        None => String::from_str(alloc, "no form"),
    }
}

/// What a line of answers says; one that names a file begins with its form.
fn answer_or_begin(
    rt: &HostRuntime,
    filling: &mut Option<Filling>,
    case: &str,
) -> io::Result<String> {
    if let Some(file) = case.strip_prefix("form ") {
        *filling = begun(rt, file)?;
        return Ok(String::from_str(rt.alloc(), case)?);
    }
    Ok(answer_of(rt.alloc(), filling, case)?)
}

fn print_answers(rt: &HostRuntime) -> io::Result<()> {
    let text = fs::read_to_string(rt, "answers")?;
    let cases = cases(rt.alloc(), text.as_str())?;
    let mut filling = None;
    for (number, case) in cases.iter().enumerate() {
        let line = answer_or_begin(rt, &mut filling, case)?;
        println!(rt; "answers {number}: {line}")?;
    }
    Ok(())
}

fn main(rt: HostRuntime) -> io::Result<()> {
    for (name, subject) in SUBJECTS {
        print_cases(&rt, name, subject)?;
    }
    print_answers(&rt)
}
