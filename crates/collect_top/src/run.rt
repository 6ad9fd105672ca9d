// The work over a device that was opened.
ghost use Rattle.std.specs.Prelude.{◌≡◌, [], IfOk, IsTrue, List, Option, ℕ, Err};
ghost use Rattle.device_state.specs.State.{initial};
ghost use Rattle.device_rules.specs.Opened.{is_opening};
ghost use Rattle.device_rules.specs.Trail.{entries_of};
ghost use Rattle.device_core.specs.View.{IsReady};
ghost use Rattle.collect_script.specs.Ends.{streams};
ghost use Rattle.collect_top.specs.Outside.{Images};
ghost use Rattle.collect_top.specs.Parts.{own_opening};
ghost use Rattle.collect_top.specs.Run.{AnswersOver, Closed, HasRun, ShowsOver};
ghost use Rattle.collect_top.specs.Stop.{end_of_script};
ghost use Rattle.collect_top.specs.Transmissions.{Transmits, Transmitted};

use crate::log::log_text;
use crate::{Stop, Work, check_text, put_text};
use collect_script::{Hand1, ScriptStop, answer_lines};
use device_core::{Device, DeviceCaller, OpenFault};
use device_rules::{Gate, Place, Trail};
use device_state::State;
use disk_model::Disk;
use entry_form::{Entry, Hand, Opening};
use field_io::{Clock, Dialer, Sink, Source};
use field_text::{Items, NoMemory, Text};
use std::alloc::Global;

/// What a call has left before the line of its stop is put.
pub struct Ran<D> {
    pub disk: D,
    pub trail: Trail,
    pub end: Result<(), Stop>,
}

// What the work over a device has left.
struct Worked<D> {
    disk: D,
    trail: Trail,
    end: Result<(), ScriptStop>,
}

/// A start with nothing behind it.
pub fn no_trail(alloc: Global) -> Trail
    ensures start { result.start ≡ initial }
    ensures entries { result.entries ≡ [] }
{
    Trail {
        start: State::initial(alloc),
        entries: Items::new(alloc),
    }
}

/// A gate at which nobody waits.
#[derive(Drop)]
struct StillGate;

impl Gate for StillGate {
    fn turn(&mut self, _: Hand, _: Place) {}
}

// What this program opens the device with.
fn opening(alloc: Global) -> Result<Opening, NoMemory>
    ensures opening { IfOk result (λ opening. Entry.Opened opening ≡ own_opening) }
    ensures known { IfOk result (λ opening. IsTrue (is_opening opening)) }
{
    Ok(Opening {
        device: 1,
        server: Text::from_string(String::from_str(alloc, "http://localhost:8080")?),
    })
}

fn close<D: Disk>(alloc: Global, device: Device<D>, end: Result<(), ScriptStop>) -> Worked<D>
    ensures closed { Closed (record { clock = D.clock; may = D.may; since = D.since }) device result.disk result.trail }
    ensures end { result.end ≡ end }
{
    let (disk, trail) = device.into_parts(alloc);
    Worked { disk, trail, end }
}

fn answer_script<D: Disk, So: Source, Si: Sink, N: Dialer, C: Clock>(
    alloc: Global,
    source: &mut So,
    sink: &mut Si,
    device: Device<D>,
    hand: &mut Hand1<N, C>,
) -> Worked<D>
    requires { IsReady device }
    ensures answers { AnswersOver (record { clock = D.clock; may = D.may; since = D.since }) D.faults device
        (streams (So.left source.old) (Si.held sink.old) (So.faults source.old) (Si.faults sink.old))
        (streams (So.left source.new) (Si.held sink.new) (So.faults source.new) (Si.faults sink.new))
        result.disk result.trail result.end }
    ensures transmitted { Transmitted (entries_of device.entries) (entries_of result.trail.entries)
        (N.carried hand.old.dialer) (N.carried hand.new.dialer) }
    ensures peer { N.peer hand.new.dialer ≡ N.peer hand.old.dialer }
{
    let mut caller = DeviceCaller::new(device);
    let end = answer_lines(alloc, source, &mut caller, sink, hand, &mut StillGate);
    close(alloc, caller.into_device(), end)
}

fn print_log<D: Disk, Si: Sink>(alloc: Global, sink: &mut Si, device: Device<D>) -> Worked<D>
    ensures { (left : Option (List ℕ)) (faults : ℕ)
        → ShowsOver (record { clock = D.clock; may = D.may; since = D.since }) Work.Log device
        (streams left (Si.held sink.old) faults (Si.faults sink.old))
        (streams left (Si.held sink.new) faults (Si.faults sink.new))
        result.disk result.trail result.end }
{
    let worked = close(alloc, device, Ok(()));
    let Worked {
        disk,
        trail,
        end: _,
    } = worked;
    let end = put_text(log_text(alloc, trail.entries.as_slice()), sink);
    Worked { disk, trail, end }
}

fn print_counts<D: Disk, Si: Sink>(alloc: Global, sink: &mut Si, device: Device<D>) -> Worked<D>
    ensures { (left : Option (List ℕ)) (faults : ℕ)
        → ShowsOver (record { clock = D.clock; may = D.may; since = D.since }) Work.Check device
        (streams left (Si.held sink.old) faults (Si.faults sink.old))
        (streams left (Si.held sink.new) faults (Si.faults sink.new))
        result.disk result.trail result.end }
{
    let end = put_text(check_text(alloc, &device), sink);
    close(alloc, device, end)
}

fn end_of(end: Result<(), ScriptStop>) -> Result<(), Stop>
    ensures { result ≡ end_of_script end }
{
    match end {
        Ok(()) => Ok(()),
        Err(stop) => Err(Stop::Script(stop)),
    }
}

fn unopened<D>(alloc: Global, disk: D, fault: OpenFault) -> Ran<D>
    ensures { (result.disk ≡ disk) × (result.trail ≡ record { start = initial; entries = [] })
        × (result.end ≡ Err (Stop.Opening fault)) }
{
    Ran {
        disk,
        trail: no_trail(alloc),
        end: Err(Stop::Opening(fault)),
    }
}

fn as_ran<D>(worked: Worked<D>) -> Ran<D>
    ensures { result ≡ record { disk = worked.disk; trail = worked.trail; end = end_of_script worked.end } }
{
    let Worked { disk, trail, end } = worked;
    Ran {
        disk,
        trail,
        end: end_of(end),
    }
}

/// Opens the device, and does the work.
pub fn run<So: Source, Si: Sink, D: Disk, N: Dialer, C: Clock>(
    alloc: Global,
    work: Work,
    source: &mut So,
    sink: &mut Si,
    disk: D,
    hand: &mut Hand1<N, C>,
) -> Ran<D>
    ensures ran { HasRun (record { clock = D.clock; may = D.may; since = D.since }) D.content D.faults work disk result.disk
        (streams (So.left source.old) (Si.held sink.old) (So.faults source.old) (Si.faults sink.old))
        (streams (So.left source.new) (Si.held sink.new) (So.faults source.new) (Si.faults sink.new))
        result.trail result.end }
    ensures transmissions { Transmits (entries_of result.trail.entries) (N.carried hand.old.dialer)
        (N.carried hand.new.dialer) }
    ensures peer { N.peer hand.new.dialer ≡ N.peer hand.old.dialer }
{
    let opening = match opening(alloc) {
        Ok(opening) => opening,
        Err(NoMemory) => return unopened(alloc, disk, OpenFault::NoMemory),
    };
    let device = match Device::open_device(alloc, disk, opening) {
        Ok(device) => device,
        Err((disk, fault)) => return unopened(alloc, disk, fault),
    };
    match work {
        Work::Run => as_ran(answer_script(alloc, source, sink, device, hand)),
        Work::Log => as_ran(print_log(alloc, sink, device)),
        Work::Check => as_ran(print_counts(alloc, sink, device)),
    }
}
