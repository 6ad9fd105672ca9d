ghost use Rattle.std.specs.Prelude.{◌≡◌, true, List, Option, ℕ};
ghost use Rattle.collect_script.specs.Ends.{streams};
ghost use Rattle.device_laws.specs.DrawnIds.{KeepsIdsApart};
ghost use Rattle.device_laws.specs.Sends.{KeepsSends};
ghost use Rattle.device_laws.specs.Finals.{KeepsFinals};
ghost use Rattle.device_laws.specs.Soundness.{KeepsUsedForms};
ghost use Rattle.device_rules.specs.Trail.{entries_of};
ghost use Rattle.collect_top.specs.Headline.{Headline};
ghost use Rattle.collect_top.specs.Outside.{Images};
ghost use Rattle.collect_top.specs.Parts.{PutsStop};
ghost use Rattle.collect_top.specs.Stop.{end_status};
ghost use Rattle.collect_top.specs.Transmissions.{Transmits};
ghost use Rattle.collect_top.specs.Words.{work_of};

use crate::run::{Ran, no_trail, run};
use crate::{Stop, put_fault, work_of};
use collect_script::{Hand1, ScriptStop};
use device_rules::Trail;
use disk_model::Disk;
use field_io::{Clock, Dialer, Failed, Sink, Source};
use field_text::Text;
use std::alloc::Global;

/// The devices of each hand.
#[derive(Debug, Drop)]
pub struct Hands<N, C> {
    pub script: Hand1<N, C>,
    pub sender: Hand1<N, C>,
    pub updater: Hand1<N, C>,
    pub lister: Hand1<N, C>,
}

/// What a call leaves: its status, the disk, the hands' devices, and the entries with their start.
#[derive(Debug, Drop)]
pub struct Done<D, N, C> {
    pub status: u8,
    pub disk: D,
    pub hands: Hands<N, C>,
    pub trail: Trail,
}

fn is_write_fault(stop: Stop) -> bool
    ensures { result ≡ true → stop ≡ Stop.Script ScriptStop.WriteFault }
{
    match stop {
        Stop::Script(stop) => stop == ScriptStop::WriteFault,
        _ => false,
    }
}

// Puts the line of a stop, where the sink hasn't failed, and answers the status.
fn finish<Si: Sink>(sink: &mut Si, end: Result<(), Stop>) -> u8
    ensures status { result ≡ end_status end }
    ensures stop { (left : Option (List ℕ)) (faults : ℕ) → PutsStop
        (streams left (Si.held sink.old) faults (Si.faults sink.old))
        (streams left (Si.held sink.new) faults (Si.faults sink.new))
        end }
{
    let stop = match end {
        Ok(()) => return 0,
        Err(stop) => stop,
    };
    if is_write_fault(stop) {
        return stop.status();
    }
    match put_fault(sink, stop) {
        Ok(()) => stop.status(),
        Err(Failed) => stop.status(),
    }
}

/// Runs a command over the outside that is handed in: `run` answers the script that the source gives, and `log`
/// prints a line for each entry of the journal and reads no script. The rounds of the script send by the dialer and the
/// clock of its hand. It always returns, and the disk and the hands' devices come back with the status and the entries.
pub fn collect_alone<So: Source, Si: Sink, D: Disk, N: Dialer, C: Clock>(
    alloc: Global,
    words: &[Text],
    source: &mut So,
    sink: &mut Si,
    disk: D,
    hands: Hands<N, C>,
) -> Done<D, N, C>
    ensures headline { Headline (record { clock = D.clock; may = D.may; since = D.since }) disk result.disk
        (work_of words.now)
        (record {
          left = So.left source.old;
          held = Si.held sink.old;
          image = D.content disk;
          source_faults = So.faults source.old;
          sink_faults = Si.faults sink.old;
          disk_faults = D.faults disk;
        })
        (record {
          left = So.left source.new;
          held = Si.held sink.new;
          image = D.content result.disk;
          source_faults = So.faults source.new;
          sink_faults = Si.faults sink.new;
          disk_faults = D.faults result.disk;
        })
        result.status result.trail }
    ensures used_forms { KeepsUsedForms (entries_of result.trail.entries) }
    ensures finals { KeepsFinals (entries_of result.trail.entries) }
    ensures ids { KeepsIdsApart (entries_of result.trail.entries) }
    ensures sends { KeepsSends (entries_of result.trail.entries) }
    ensures transmissions { Transmits (entries_of result.trail.entries) (N.carried hands.script.dialer)
        (N.carried result.hands.script.dialer) }
    ensures peer { N.peer result.hands.script.dialer ≡ N.peer hands.script.dialer }
    ensures workers { (result.hands.sender ≡ hands.sender) × (result.hands.updater ≡ hands.updater)
        × (result.hands.lister ≡ hands.lister) }
{
    let Some(work) = work_of(words) else {
        let status = finish(sink, Err(Stop::Usage));
        return Done {
            status,
            disk,
            hands,
            trail: no_trail(alloc),
        };
    };
    let mut hands = hands;
    let Ran { disk, trail, end } = run(alloc, work, source, sink, disk, &mut hands.script);
    let status = finish(sink, end);
    Done {
        status,
        disk,
        hands,
        trail,
    }
}
