// Scripts in short: a line `load NAME.xml` has the form of that file in place of its name, and `times N LINES`, the lines
// parted by ` / `, stands for N times these lines, with the number in place of `{n}`, in the forms that they load too.
use collect_text::print_text;
use field_text::{NoMemory, Text};
use std::alloc::AllocError;
use std::{fs, io};

// The name of the file that a line loads, if it names one.
fn file_of(line: &str) -> Option<&str> {
    let name = line.strip_prefix("load ")?;
    if name.ends_with(".xml") {
        Some(name)
    } else {
        None
    }
}

// A text as a word of a script.
fn word_of(rt: &HostRuntime, text: String) -> io::Result<Vec<u8>> {
    let mut word = Vec::new(rt.alloc());
    match print_text(&Text::from_string(text), &mut word) {
        Ok(()) => Ok(word),
        Err(NoMemory) => Err(AllocError.into()),
    }
}

fn numbered(rt: &HostRuntime, text: &str, number: u64) -> io::Result<String> {
    let digits = format!(in rt.alloc(); "{number}")?;
    Ok(text.replace(rt.alloc(), "{n}", digits.as_str())?)
}

fn put_line(rt: &HostRuntime, line: &str, number: u64, out: &mut Vec<u8>) -> io::Result<()> {
    match file_of(line) {
        Some(name) => {
            let form = fs::read_to_string(rt, name)?;
            out.extend_from_slice(b"load ")?;
            let word = word_of(rt, numbered(rt, form.as_str(), number)?)?;
            out.extend_from_slice(word.as_slice())?;
        }
        None => {
            let line = numbered(rt, line, number)?;
            out.extend_from_slice(line.as_bytes())?;
        }
    }
    out.push(b'\n')?;
    Ok(())
}

// The number and the lines of a line that stands for many.
fn times_of(line: &str) -> Option<(u64, &str)> {
    let (count, lines) = line.strip_prefix("times ")?.split_once(' ')?;
    Some((count.parse().ok()?, lines))
}

fn put_lines(rt: &HostRuntime, lines: &str, number: u64, out: &mut Vec<u8>) -> io::Result<()> {
    for line in lines.split(" / ") {
        put_line(rt, line, number, out)?;
    }
    Ok(())
}

fn put_times(rt: &HostRuntime, line: &str, out: &mut Vec<u8>) -> io::Result<()> {
    let (count, lines) = times_of(line).unwrap_or((1, line));
    for number in 1..=count {
        put_lines(rt, lines, number, out)?;
    }
    Ok(())
}

/// The script that a short one stands for.
pub fn script_of(rt: &HostRuntime, short: &str) -> io::Result<Vec<u8>> {
    let mut out = Vec::new(rt.alloc());
    for line in short.lines() {
        put_times(rt, line, &mut out)?;
    }
    Ok(out)
}
