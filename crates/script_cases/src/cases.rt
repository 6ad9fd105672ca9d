// Cases: scripts that run over one journal, and scripts that are stopped.
use crate::peers::{Peer, hands_of};
use crate::runs::{Runs, run_behind, run_to_stop};
use crate::scripts::script_of;
use field_io::{Dialer, MemDialer};
use field_text::NoMemory;
use rosa_box::BoxDialer;
use std::alloc::AllocError;
use std::io;

// How many calls of a disk are stopped at most.
const MOST_STOPS: u64 = 1_000;

fn told<T>(answer: Result<T, NoMemory>) -> io::Result<T> {
    match answer {
        Ok(value) => Ok(value),
        Err(NoMemory) => Err(AllocError.into()),
    }
}

// The command that a script is given to, and the script: `check` and `log` are named in a first line, and read none.
fn command_of(short: &str) -> (&str, &str) {
    if let Some(short) = short.strip_prefix("-- check\n") {
        ("check", short)
    } else if let Some(short) = short.strip_prefix("-- log\n") {
        ("log", short)
    } else {
        ("run", short)
    }
}

fn printed<N: Dialer + Drop>(
    rt: &HostRuntime,
    runs: Runs<N>,
    short: &str,
) -> io::Result<(String, Runs<N>)> {
    let (word, short) = command_of(short);
    let script = script_of(rt, short)?;
    told(runs.run(rt.alloc(), word, script.as_slice()))
}

// Of a script behind `-- in short` the last line is printed.
fn print_run<N: Dialer + Drop>(
    rt: &HostRuntime,
    runs: Runs<N>,
    short: &str,
) -> io::Result<Runs<N>> {
    match short.strip_prefix("-- in short\n") {
        Some(short) => {
            let (printed, runs) = printed(rt, runs, short)?;
            println!(rt; "{}", printed.as_str().lines().last().unwrap_or(""))?;
            Ok(runs)
        }
        None => {
            let (printed, runs) = printed(rt, runs, short)?;
            print!(rt; "{printed}")?;
            Ok(runs)
        }
    }
}

fn print_kept(rt: &HostRuntime, kept: &[u8]) -> io::Result<()> {
    let text = String::from_utf8_lossy(rt.alloc(), kept)?;
    print!(rt; "{text}")
}

// The scripts run one after another over one journal, and then what the peer has kept.
fn print_runs<N: Dialer + Peer + Drop>(
    rt: &HostRuntime,
    words: &str,
    shorts: &str,
) -> io::Result<()> {
    let hands = told(hands_of::<N>(rt.alloc(), words))?;
    let mut runs = Runs::new(rt.alloc(), hands);
    for short in shorts.split("-- again\n") {
        runs = print_run(rt, runs, short)?;
    }
    let kept = told(runs.hands.script.dialer.kept(rt.alloc()))?;
    print_kept(rt, kept.as_slice())
}

// What a script prints whose disk stops at the call with a number, what another one prints over the disk that was left,
// and what the peer has kept; and whether the first came to its end.
fn stopped<N: Dialer + Peer + Drop>(
    rt: &HostRuntime,
    words: &str,
    call: u64,
    script: &[u8],
    behind: &[u8],
) -> io::Result<(String, bool)> {
    let hands = told(hands_of::<N>(rt.alloc(), words))?;
    let left = told(run_to_stop(rt.alloc(), call, script, hands))?;
    let is_whole = left.status == 0;
    let mut text = String::from_str(rt.alloc(), left.printed.as_str())?;
    text.push_str("-- then\n")?;
    let (printed, hands) = told(run_behind(rt.alloc(), left, behind))?;
    text.push_str(printed.as_str())?;
    let kept = told(hands.script.dialer.kept(rt.alloc()))?;
    text.push_str(String::from_utf8_lossy(rt.alloc(), kept.as_slice())?.as_str())?;
    Ok((text, is_whole))
}

// What `stopped` tells of the first call of the disk, of the second and so on. Stops that print the same are told by the
// first of them.
fn print_stops<N: Dialer + Peer + Drop>(
    rt: &HostRuntime,
    words: &str,
    script: &[u8],
    behind: &[u8],
) -> io::Result<()> {
    let mut last = String::new(rt.alloc());
    for call in 1..MOST_STOPS {
        let (text, is_whole) = stopped::<N>(rt, words, call, script, behind)?;
        if text.as_str() != last.as_str() {
            println!(rt; "-- stop {call}")?;
            print!(rt; "{text}")?;
        }
        if is_whole {
            return Ok(());
        }
        last = text;
    }
    Ok(())
}

fn print_scripts<N: Dialer + Peer + Drop>(
    rt: &HostRuntime,
    words: &str,
    scripts: &str,
) -> io::Result<()> {
    match scripts.split_once("-- at each stop\n") {
        Some((short, behind)) => {
            let script = script_of(rt, short)?;
            let behind = script_of(rt, behind)?;
            print_stops::<N>(rt, words, script.as_slice(), behind.as_slice())
        }
        None => print_runs::<N>(rt, words, scripts),
    }
}

/// Prints what the scripts of a case print. A first line `-- replies` has the replies of its peer, and a first line
/// `-- server` gives it a server, with the numbers of the calls that fail.
pub fn print_case(rt: &HostRuntime, scripts: &str) -> io::Result<()> {
    let (first, others) = scripts.split_once('\n').unwrap_or((scripts, ""));
    if let Some(words) = first.strip_prefix("-- server") {
        print_scripts::<BoxDialer>(rt, words.trim(), others)
    } else if let Some(words) = first.strip_prefix("-- replies ") {
        print_scripts::<MemDialer>(rt, words, others)
    } else {
        print_scripts::<MemDialer>(rt, "", scripts)
    }
}
