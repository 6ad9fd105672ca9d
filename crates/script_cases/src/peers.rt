// The peers that the hands of a case dial to: none, one with canned replies, or a server.
use crate::runs::hand;
use case_lines::bytes_of;
use collect_text::print_text;
use collect_top::Hands;
use field_io::{FixedClock, MemDialer};
use field_text::{Items, NoMemory, Text};
use rosa_box::{BoxDialer, BoxKept, BoxState};
use std::alloc::Global;

/// A dialer that each hand of a case has, as its first line says.
pub trait Peer {
    fn make(alloc: Global, words: &str) -> Result<Self, NoMemory>;

    /// The lines of what the peer has kept.
    fn kept(&self, alloc: Global) -> Result<Vec<u8>, NoMemory>;
}

// The numbers of calls, between commas.
fn calls_of(alloc: Global, numbers: &str) -> Result<Vec<u64>, NoMemory> {
    let mut calls = Vec::new(alloc);
    for number in numbers.split(',') {
        if let Ok(number) = number.parse::<u64>() {
            calls.push(number)?;
        }
    }
    Ok(calls)
}

// The replies between bars, with escapes in them.
fn replies_of(alloc: Global, replies: &str) -> Result<Vec<Vec<u8>>, NoMemory> {
    let mut all = Vec::new(alloc);
    if replies.is_empty() {
        return Ok(all);
    }
    for reply in replies.split(" | ") {
        all.push(bytes_of(alloc, reply)?)?;
    }
    Ok(all)
}

impl Peer for MemDialer {
    fn make(alloc: Global, words: &str) -> Result<MemDialer, NoMemory> {
        Ok(MemDialer::make(alloc, replies_of(alloc, words)?, Vec::new(alloc)))
    }

    fn kept(&self, alloc: Global) -> Result<Vec<u8>, NoMemory> {
        Ok(Vec::new(alloc))
    }
}

fn empty_box(alloc: Global) -> Result<BoxState, NoMemory> {
    Ok(BoxState {
        authority: Text::from_string(String::from_str(alloc, "localhost:8080")?),
        forms: Items::new(alloc),
        lists: Items::new(alloc),
        kept: Items::new(alloc),
    })
}

fn push_kept(alloc: Global, kept: &BoxKept, out: &mut Vec<u8>) -> Result<(), NoMemory> {
    out.extend_from_slice(b"kept ")?;
    out.extend_from_slice(kept.instance_id.bytes())?;
    out.push(b' ')?;
    if let Ok(document) = Text::from_bytes(alloc, kept.bytes.bytes()) {
        print_text(&document, out)?;
    }
    out.push(b'\n')?;
    Ok(())
}

impl Peer for BoxDialer {
    fn make(alloc: Global, words: &str) -> Result<BoxDialer, NoMemory> {
        let fails = calls_of(alloc, words)?;
        Ok(BoxDialer::make(alloc, empty_box(alloc)?, fails))
    }

    fn kept(&self, alloc: Global) -> Result<Vec<u8>, NoMemory> {
        let mut out = Vec::new(alloc);
        for kept in self.state().kept.as_slice() {
            push_kept(alloc, kept, &mut out)?;
        }
        Ok(out)
    }
}

/// The hands of a case, whose script's hand has the peer that the words say.
pub fn hands_of<N: Peer + Drop>(
    alloc: Global,
    words: &str,
) -> Result<Hands<N, FixedClock>, NoMemory> {
    Ok(Hands {
        script: hand(N::make(alloc, words)?),
        sender: hand(N::make(alloc, "")?),
        updater: hand(N::make(alloc, "")?),
        lister: hand(N::make(alloc, "")?),
    })
}
