//! The program: the top call over the standard streams, the file `device.journal` of the current folder, the clock, and
//! sockets.
#![tactic(auto)]

mod streams;

ghost use Rattle.std.specs.Prelude.{◌≡◌};
ghost use Rattle.std.specs.Process.{exit_status};
ghost use Rattle.collect_top.specs.Stop.{status_of};

use crate::streams::{Watched, hold_closed_streams};
use collect_script::ScriptStop;
use collect_top::{Hand1, Hands, Stop, collect_alone, put_fault};
use device_core::OpenFault;
use disk_model::{FileDisk, LockedFile};
use field_io::{StdSink, StdSource, SystemClock, TcpDialer};
use field_text::{NoMemory, Text};
use std::alloc::{AllocError, Global};
use std::process::ExitCode;
use std::rt::Env;
use std::time::Duration;
use std::{env, io};

const FOLDER: &str = ".";

const JOURNAL: &str = "device.journal";

/// How many seconds a send or a take may wait.
const PATIENCE: u64 = 30;

// The words behind the program's name, none where the system can't tell them as texts.
fn words<R: Env + Alloc<A = Global>>(rt: &R) -> Result<Vec<Text>, NoMemory> {
    let mut words = Vec::new(rt.alloc());
    let Ok(args) = env::args(rt) else {
        return Ok(words);
    };
    for arg in args.skip(1) {
        words.push(Text::from_string(arg))?;
    }
    Ok(words)
}

// A hand that dials over sockets.
fn hand(rt: &HostRuntime) -> Hand1<TcpDialer<HostRuntime>, SystemClock<HostRuntime>> {
    Hand1 {
        dialer: TcpDialer::new(*rt, Duration::from_secs(PATIENCE)),
        clock: SystemClock::new(*rt),
    }
}

// Says on the standard error what a number hides. Where that can't be written, the number has to do.
fn explain(rt: &HostRuntime, what: &str, trouble: Option<&io::Error>) {
    let _ = match trouble {
        Some(error) => eprintln!(rt; "collect: {what}: {error}"),
        None => eprintln!(rt; "collect: {what}"),
    };
}

// Ends before the top call, with the line of the stop.
fn stopped<W: io::Write>(output: &mut W, stop: Stop) -> ExitCode
    ensures { exit_status result ≡ status_of stop }
{
    let _ = put_fault(&mut StdSink::new(output), stop);
    ExitCode::from(stop.status())
}

fn main(rt: HostRuntime) -> ExitCode {
    let mut input = Watched::new(rt.stdin());
    let mut output = Watched::new(io::writer(&rt));
    if let Err(error) = hold_closed_streams(&rt) {
        explain(&rt, "the null device", Some(&error));
        return stopped(&mut output, Stop::Opening(OpenFault::DiskFault));
    }
    let words = match words(&rt) {
        Ok(words) => words,
        Err(NoMemory) => return stopped(&mut output, Stop::Script(ScriptStop::NoMemory)),
    };
    let disk = FileDisk::new(LockedFile {
        rt,
        folder: FOLDER,
        path: JOURNAL,
    });
    let hands = Hands {
        script: hand(&rt),
        sender: hand(&rt),
        updater: hand(&rt),
        lister: hand(&rt),
    };
    let mut source = StdSource::new(&mut input);
    let mut sink = StdSink::new(&mut output);
    let done = collect_alone(rt.alloc(), &words, &mut source, &mut sink, disk, hands);
    match done.status {
        2 => explain(&rt, "the command words are `run` and `log`", None),
        3 => explain(&rt, "standard input", input.trouble.as_ref()),
        4 => explain(&rt, "standard output", output.trouble.as_ref()),
        5 => explain(&rt, JOURNAL, done.disk.trouble()),
        _ => {}
    }
    ExitCode::from(done.status)
}
