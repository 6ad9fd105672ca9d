// Runs of the program over a journal in memory.
ghost use Rattle.std.specs.Prelude.{◌≡◌, [], ◌∷◌, ◌++◌, codes, string_bytes, IfOk, Some};
ghost use Rattle.std.specs.Fmt.{decimal};

use collect_top::{Done, Hand1, Hands, collect_alone};
use disk_model::{Disk, FusedDisk, MemDisk};
use field_io::{Dialer, FixedClock, MemSink, MemSource};
use field_text::{NoMemory, Text};
use std::alloc::Global;

/// Runs over one journal, with the same hands one after another.
#[derive(Drop)]
pub struct Runs<N> {
    journal: Vec<u8>,
    pub hands: Hands<N, FixedClock>,
}

/// A hand that dials so, with a clock that stands still.
pub fn hand<N>(dialer: N) -> Hand1<N, FixedClock> {
    let clock = FixedClock::make(0);
    Hand1 { dialer, clock }
}

// The one word of a command.
fn one_word(alloc: Global, word: &str) -> Result<Vec<Text>, NoMemory>
    ensures { IfOk result (λ words. words.items ≡ word.now ∷ []) }
{
    let mut words = Vec::new(alloc);
    words.push(Text::from_string(String::from_str(alloc, word)?))?;
    Ok(words)
}

fn disk_of(alloc: Global, journal: &[u8]) -> Result<MemDisk, NoMemory>
    ensures { IfOk result (λ disk. ⟦<MemDisk as Disk>⟧.content disk ≡ Some journal.now) }
{
    MemDisk::make(alloc, Vec::from_slice(alloc, journal)?)
}

/// What a run left: its status, what it printed, the disk and the hands.
#[derive(Drop)]
pub struct Left<D, N> {
    pub status: u8,
    pub printed: String,
    pub disk: D,
    pub hands: Hands<N, FixedClock>,
}

// The status of a call of the program, and the disk and the hands behind it.
fn call<D: Disk + Drop, N: Dialer + Drop>(
    alloc: Global,
    words: &[Text],
    source: &mut MemSource,
    sink: &mut MemSink,
    disk: D,
    hands: Hands<N, FixedClock>,
) -> (u8, D, Hands<N, FixedClock>) {
    let done = collect_alone(alloc, words, source, sink, disk, hands);
    let Done {
        status,
        disk,
        hands,
        trail: _,
    } = done;
    (status, disk, hands)
}

fn run_over<D: Disk + Drop, N: Dialer + Drop>(
    alloc: Global,
    word: &str,
    disk: D,
    script: &[u8],
    hands: Hands<N, FixedClock>,
) -> Result<Left<D, N>, NoMemory> {
    let words = one_word(alloc, word)?;
    let mut source = MemSource::make(Vec::from_slice(alloc, script)?, Vec::new(alloc));
    let mut sink = MemSink::make(Vec::new(alloc), Vec::new(alloc));
    let (status, disk, hands) = call(alloc, &words, &mut source, &mut sink, disk, hands);
    let printed = printed(alloc, status, sink.bytes())?;
    Ok(Left {
        status,
        printed,
        disk,
        hands,
    })
}

fn status_line(alloc: Global, status: u8) -> Result<String, NoMemory>
    ensures { IfOk result (λ line. string_bytes line ≡ codes "status " ++ decimal status ++ codes "\n") }
{
    Ok(format!(in alloc; "status {status}\n")?)
}

// What a run printed, and a last line with its status where that isn't 0.
fn printed(alloc: Global, status: u8, bytes: &[u8]) -> Result<String, NoMemory> {
    let mut printed = String::from_utf8_lossy(alloc, bytes)?;
    if status != 0 {
        printed.push_str(status_line(alloc, status)?.as_str())?;
    }
    Ok(printed)
}

impl<N: Dialer + Drop> Runs<N> {
    /// Runs over an empty journal.
    pub fn new(alloc: Global, hands: Hands<N, FixedClock>) -> Runs<N> {
        Runs {
            journal: Vec::new(alloc),
            hands,
        }
    }

    /// What the command of this word prints over the journal, with a script, and the runs to go on with.
    pub fn run(
        self,
        alloc: Global,
        word: &str,
        script: &[u8],
    ) -> Result<(String, Runs<N>), NoMemory> {
        let Runs { journal, hands } = self;
        let disk = disk_of(alloc, journal.as_slice())?;
        let left = run_over(alloc, word, disk, script, hands)?;
        let Left {
            status: _,
            printed,
            disk,
            hands,
        } = left;
        let journal = Vec::from_slice(alloc, disk.bytes())?;
        Ok((printed, Runs { journal, hands }))
    }
}

/// Runs a script over an empty disk that stops at the call with this number.
pub fn run_to_stop<N: Dialer + Drop>(
    alloc: Global,
    call: u64,
    script: &[u8],
    hands: Hands<N, FixedClock>,
) -> Result<Left<MemDisk, N>, NoMemory> {
    let disk = FusedDisk::make(disk_of(alloc, b"")?, call);
    let left = run_over(alloc, "run", disk, script, hands)?;
    let Left {
        status,
        printed,
        disk,
        hands,
    } = left;
    Ok(Left {
        status,
        printed,
        disk: disk.into_disk(),
        hands,
    })
}

/// What a script prints over the disk that a run left, and the hands behind it.
pub fn run_behind<N: Dialer + Drop>(
    alloc: Global,
    left: Left<MemDisk, N>,
    script: &[u8],
) -> Result<(String, Hands<N, FixedClock>), NoMemory> {
    let Left {
        status: _,
        printed: _,
        disk,
        hands,
    } = left;
    let left = run_over(alloc, "run", disk, script, hands)?;
    let Left {
        status: _,
        printed,
        disk: _,
        hands,
    } = left;
    Ok((printed, hands))
}
