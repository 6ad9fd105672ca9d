// A disk over a real file. It keeps no byte back: each call goes to the file at once.
ghost use Rattle.std.specs.Prelude.{◌≡◌, ◌≤◌, length, None, IfOk, IsErr, MatchResult};
ghost use Rattle.disk_model.specs.Laws.{none_told};

use crate::Disk;
use crate::counts::Counts;
use crate::opener::{Opened, Opener};
use field_io::Failed;
use std::fs::OpenFile;
use std::io;
use std::io::{Read, Seek, SeekFrom, Write};

/// A disk over a file of the system, which it opens at its first call. It tells nothing of its bytes or its images:
/// that a real file behaves as a disk is trusted. Where the file can't be opened, each call fails.
#[derive(Drop)]
pub struct FileDisk<O, F> {
    opener: O,
    opened: Option<Opened<F>>,
    // What the system said of the first call that failed.
    trouble: Option<io::Error>,
    counts: Counts,
}

impl<O: Opener<File = F>, F: Drop> FileDisk<O, F> {
    /// A disk over the file that this opener opens. Nothing is touched before the first call.
    pub fn new(opener: O) -> FileDisk<O, F> {
        FileDisk {
            opener,
            opened: None,
            trouble: None,
            counts: Counts::new(),
        }
    }

    /// What the system said of the first call that failed.
    pub fn trouble(&self) -> Option<&io::Error> {
        self.trouble.as_ref()
    }
}

// Opens the file before the first call. A file that couldn't be opened stays closed.
fn open_once<O: Opener<File = F>, F: Drop>(
    opener: &O,
    opened: &mut Option<Opened<F>>,
    trouble: &mut Option<io::Error>,
) {
    if opened.is_some() || trouble.is_some() {
        return;
    }
    match opener.open() {
        Ok(file) => *opened = Some(file),
        Err(error) => *trouble = Some(error),
    }
}

fn not_open<T>() -> io::Result<T>
    ensures { IsErr result }
{
    Err(io::ErrorKind::NotFound.into())
}

// Syncs the file's bytes and what is needed to read them back, and the first time its folder too.
fn sync_both<F: OpenFile + Drop>(opened: &mut Option<Opened<F>>) -> io::Result<()> {
    let Some(opened) = opened else {
        return not_open();
    };
    opened.file.sync_data()?;
    if let Some(folder) = &opened.folder {
        folder.sync_all()?;
    }
    opened.folder = None;
    Ok(())
}

fn len<F: OpenFile>(opened: &Option<Opened<F>>) -> io::Result<u64> {
    match opened {
        Some(opened) => Ok(opened.file.metadata()?.len()),
        None => not_open(),
    }
}

// Fills `buf` from a place on, as far as the file goes.
fn read_at<F: Read + Seek>(
    opened: &mut Option<Opened<F>>,
    at: u64,
    buf: &mut [u8],
) -> io::Result<usize>
    ensures { IfOk result (λ n. n ≤ length buf.old) }
{
    let Some(opened) = opened else {
        return not_open();
    };
    opened.file.seek(SeekFrom::Start(at))?;
    let mut filled = 0;
    while filled < buf.len() {
        let count = opened.file.read(&mut buf[filled..])?;
        if count == 0 {
            break;
        }
        filled += count;
    }
    Ok(filled)
}

fn write_at<F: Write + Seek>(
    opened: &mut Option<Opened<F>>,
    at: u64,
    bytes: &[u8],
) -> io::Result<()> {
    let Some(opened) = opened else {
        return not_open();
    };
    opened.file.seek(SeekFrom::Start(at))?;
    opened.file.write_all(bytes)
}

// Keeps what the system said of the first call that failed.
fn or_failed<T>(answer: io::Result<T>, trouble: &mut Option<io::Error>) -> Result<T, Failed>
    ensures { MatchResult answer (λ x. result ≡ Ok x) (λ _. IsErr result) }
{
    match answer {
        Ok(value) => Ok(value),
        Err(error) => {
            if trouble.is_none() {
                *trouble = Some(error);
            }
            Err(Failed)
        }
    }
}

impl<O: Opener<File = F>, F: Read + Write + Seek + OpenFile + Drop> Disk for FileDisk<O, F> {
    ghost content = { λ _. None };

    ghost may = { λ _ _. ⊥ };

    ghost since = { λ _ _ _. ⊥ };

    ghost clock = { λ d. d.counts.calls };

    ghost faults = { λ d. d.counts.faults };

    ghost calls = { λ d. d.counts.calls };

    ghost syncs = { λ d. d.counts.syncs };

    ghost reads_as = { λ d bytes told. none_told bytes told };

    ghost counts_now = { λ d t c le now. now };

    ghost only_now = { λ d c was. was };

    ghost earlier = { λ d t u c le was. was };

    fn len(&mut self) -> Result<u64, Failed> {
        self.counts.call();
        open_once(&self.opener, &mut self.opened, &mut self.trouble);
        let answer = or_failed(len(&self.opened), &mut self.trouble);
        self.counts.answered(answer)
    }

    fn read(&mut self, at: u64, buf: &mut [u8]) -> Result<usize, Failed> {
        self.counts.call();
        open_once(&self.opener, &mut self.opened, &mut self.trouble);
        let answer = or_failed(read_at(&mut self.opened, at, buf), &mut self.trouble);
        self.counts.answered(answer)
    }

    fn write_at(&mut self, at: u64, bytes: &[u8]) -> Result<(), Failed> {
        self.counts.call();
        open_once(&self.opener, &mut self.opened, &mut self.trouble);
        let answer = or_failed(write_at(&mut self.opened, at, bytes), &mut self.trouble);
        self.counts.answered(answer)
    }

    fn sync(&mut self) -> Result<(), Failed> {
        self.counts.sync();
        open_once(&self.opener, &mut self.opened, &mut self.trouble);
        let answer = or_failed(sync_both(&mut self.opened), &mut self.trouble);
        self.counts.answered(answer)
    }

    fn moment(&self) -> u64 {
        self.counts.calls
    }

    fn fault_count(&self) -> u64 {
        self.counts.faults
    }
}
