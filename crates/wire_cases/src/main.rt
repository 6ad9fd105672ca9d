//! Asks the readers of replies, the server of OpenRosa and its dialer the cases of the data folder, and prints what
//! they answer.
#![tactic(auto)]

mod exchanges;
mod replies;
mod requests;

use case_lines::cases;
use field_text::NoMemory;
use std::alloc::{AllocError, Global};
use std::{fs, io};

// What was made, or that memory ran out.
fn made<T>(answer: Result<T, NoMemory>) -> Result<T, AllocError> {
    match answer {
        Ok(value) => Ok(value),
        Err(NoMemory) => Err(AllocError),
    }
}

fn print_replies(rt: &HostRuntime) -> io::Result<()> {
    let text = fs::read_to_string(rt, "replies")?;
    for case in &cases(rt.alloc(), text.as_str())? {
        let lines = made(replies::answer(rt.alloc(), case))?;
        println!(rt; "{lines}")?;
    }
    Ok(())
}

fn print_exchanges(rt: &HostRuntime) -> io::Result<()> {
    let text = fs::read_to_string(rt, "exchanges")?;
    let cases = cases(rt.alloc(), text.as_str())?;
    for (number, case) in cases.iter().enumerate() {
        let line = made(exchanges::answer(rt.alloc(), case))?;
        println!(rt; "exchanges {number}: {line}")?;
    }
    Ok(())
}

fn print_posts(rt: &HostRuntime) -> io::Result<()> {
    let text = fs::read_to_string(rt, "posts")?;
    let cases = cases(rt.alloc(), text.as_str())?;
    for (number, case) in cases.iter().enumerate() {
        let answer = made(requests::answer_post(rt.alloc(), case))?;
        println!(rt; "posts {number}: {answer}")?;
    }
    Ok(())
}

// The requests come to one server, one after another.
fn print_requests(rt: &HostRuntime) -> io::Result<()> {
    let text = fs::read_to_string(rt, "requests")?;
    let cases = cases(rt.alloc(), text.as_str())?;
    let lines = made(requests::answers(rt.alloc(), cases.as_slice()))?;
    for (number, line) in lines.iter().enumerate() {
        println!(rt; "requests {number}: {line}")?;
    }
    Ok(())
}

fn main(rt: HostRuntime) -> io::Result<()> {
    print_replies(&rt)?;
    print_posts(&rt)?;
    print_exchanges(&rt)?;
    print_requests(&rt)
}
