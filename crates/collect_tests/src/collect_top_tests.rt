use collect_top::*;
use disk_model::{FailingDisk, MemDisk, StumbleDisk};
use field_io::{FixedClock, MemDialer, MemSink, MemSource};
use field_text::Text;
use std::alloc::Global;
use std::test::Fail;

const SETTINGS: &[u8] = b"set autosend on\nshow settings\nquit\n";

const SETTINGS_ANSWERS: &[u8] = b"2 ok\n2 settings mode manual autosend on\n2 bye\n";

// What a run left: its status, what was printed, the journal, and the number of entries.
#[derive(Drop)]
struct Left {
    status: u8,
    printed: Vec<u8>,
    journal: Vec<u8>,
    entries: usize,
}

// The calls that are to fail, by the numbers of each object's calls.
#[derive(Drop)]
struct Fails {
    source: Vec<u64>,
    sink: Vec<u64>,
    disk: Vec<u64>,
}

fn no_fails(alloc: Global) -> Fails {
    Fails {
        source: Vec::new(alloc),
        sink: Vec::new(alloc),
        disk: Vec::new(alloc),
    }
}

fn hand(alloc: Global) -> Hand1<MemDialer, FixedClock> {
    Hand1 {
        dialer: MemDialer::make(alloc, Vec::new(alloc), Vec::new(alloc)),
        clock: FixedClock::make(0),
    }
}

fn hands(alloc: Global) -> Hands<MemDialer, FixedClock> {
    Hands {
        script: hand(alloc),
        sender: hand(alloc),
        updater: hand(alloc),
        lister: hand(alloc),
    }
}

fn texts(alloc: Global, words: &[&str]) -> Result<Vec<Text>, Fail> {
    let mut texts = Vec::new(alloc);
    for word in words {
        texts.push(Text::from_string(String::from_str(alloc, word)?))?;
    }
    Ok(texts)
}

fn memory(alloc: Global, journal: &[u8]) -> Result<MemDisk, Fail> {
    Ok(MemDisk::make(alloc, Vec::from_slice(alloc, journal)?)?)
}

// The status of a call, the disk behind it, and the number of entries.
fn call(
    alloc: Global,
    words: &[Text],
    source: &mut MemSource,
    sink: &mut MemSink,
    disk: FailingDisk,
) -> (u8, MemDisk, usize) {
    let done = collect_alone(alloc, words, source, sink, disk, hands(alloc));
    let Done {
        status,
        disk,
        hands: _,
        trail,
    } = done;
    (status, disk.into_disk(), trail.entries.len())
}

fn run(
    alloc: Global,
    words: &[&str],
    journal: &[u8],
    script: &[u8],
    fails: Fails,
) -> Result<Left, Fail> {
    let Fails { source, sink, disk } = fails;
    let mut source = MemSource::make(Vec::from_slice(alloc, script)?, source);
    let mut sink = MemSink::make(Vec::new(alloc), sink);
    let disk = StumbleDisk::make(memory(alloc, journal)?, disk);
    let texts = texts(alloc, words)?;
    let (status, disk, entries) = call(alloc, &texts, &mut source, &mut sink, disk);
    Ok(Left {
        status,
        printed: Vec::from_slice(alloc, sink.bytes())?,
        journal: Vec::from_slice(alloc, disk.bytes())?,
        entries,
    })
}

struct Case {
    words: &'static [&'static str],
    script: &'static [u8],
    status: u8,
    printed: &'static [u8],
    // bytes of the journal behind the run
    length: usize,
}

static CASES: [Case; 10] = [
    Case {
        words: &["run"],
        script: SETTINGS,
        status: 0,
        printed: SETTINGS_ANSWERS,
        length: 57,
    },
    Case {
        words: &["run"],
        script: b"",
        status: 0,
        printed: b"",
        length: 49,
    },
    Case {
        words: &["run"],
        script: b"dance\nshow settings\n",
        status: 0,
        printed: b"1 bad line\n1 settings mode manual autosend off\n",
        length: 49,
    },
    Case {
        words: &["run"],
        script: b"quit\ndance\n",
        status: 0,
        printed: b"1 bye\n",
        length: 49,
    },
    Case {
        words: &["run"],
        script: b"# dance\n\n  \nquit",
        status: 0,
        printed: b"1 bye\n",
        length: 49,
    },
    Case {
        words: &["run"],
        script: b"set \"autosend\" off\r\nset  autosend on \n",
        status: 0,
        printed: b"2 ok\n3 ok\n",
        length: 65,
    },
    Case {
        words: &["run"],
        script: b"set mode exact\nset mode previous\nshow settings\nset mode manual\n",
        status: 0,
        printed: b"2 ok\n3 ok\n3 settings mode previous autosend off\n4 ok\n",
        length: 73,
    },
    Case {
        words: &["run", "run"],
        script: b"quit\n",
        status: 2,
        printed: b"fault 2\n",
        length: 0,
    },
    Case {
        words: &[],
        script: b"quit\n",
        status: 2,
        printed: b"fault 2\n",
        length: 0,
    },
    Case {
        words: &["fly"],
        script: b"quit\n",
        status: 2,
        printed: b"fault 2\n",
        length: 0,
    },
];

#[test]
fn scripts_are_answered(rt: HostRuntime) -> Result<(), Fail> {
    let alloc = rt.alloc();
    for case in &CASES {
        let left = run(alloc, case.words, b"", case.script, no_fails(alloc))?;
        assert_eq!(rt; left.status, case.status);
        assert_eq!(rt; left.printed.as_slice(), case.printed);
        assert_eq!(rt; left.journal.len(), case.length);
    }
    Ok(())
}

// A line of 8,192 bytes is answered, a longer one ends the run; ten bytes are no journal, and nine are an empty one.
#[test]
fn limits_are_told(rt: HostRuntime) -> Result<(), Fail> {
    let alloc = rt.alloc();
    let long = [b'#'; 8193];
    let left = run(alloc, &["run"], b"", &long[..8192], no_fails(alloc))?;
    assert_eq!(rt; left.status, 0);
    let left = run(alloc, &["run"], b"", &long, no_fails(alloc))?;
    assert_eq!(rt; left.status, 8);
    assert_eq!(rt; left.printed.as_slice(), b"fault 8\n".as_slice());
    let closed = [0xA7u8; 10];
    let left = run(alloc, &["run"], &closed[..9], b"quit\n", no_fails(alloc))?;
    assert_eq!(rt; left.printed.as_slice(), b"1 bye\n".as_slice());
    let left = run(alloc, &["run"], &closed, b"quit\n", no_fails(alloc))?;
    assert_eq!(rt; left.status, 6);
    assert_eq!(rt; left.printed.as_slice(), b"fault 6 at 0\n".as_slice());
    Ok(())
}

// The first call of the source takes the whole script, and a script without `quit` has a second one.
#[test]
fn faults_come_behind_what_was_answered(rt: HostRuntime) -> Result<(), Fail> {
    let alloc = rt.alloc();
    for call in 1..3u64 {
        let mut fails = no_fails(alloc);
        fails.source = Vec::from_slice(alloc, &[call])?;
        let left = run(alloc, &["run"], b"", b"set autosend on\nshow", fails)?;
        assert_eq!(rt; left.status, 3);
        let want: &[u8] = if call == 1 {
            b"fault 3\n"
        } else {
            b"2 ok\nfault 3\n"
        };
        assert_eq!(rt; left.printed.as_slice(), want);
        let mut fails = no_fails(alloc);
        fails.sink = Vec::from_slice(alloc, &[call])?;
        let left = run(alloc, &["run"], b"", SETTINGS, fails)?;
        assert_eq!(rt; left.status, 4);
        let want: &[u8] = if call == 1 { b"" } else { b"2 ok\n" };
        assert_eq!(rt; left.printed.as_slice(), want);
    }
    Ok(())
}

#[test]
fn the_log_has_a_line_for_each_entry(rt: HostRuntime) -> Result<(), Fail> {
    let alloc = rt.alloc();
    let left = run(alloc, &["run"], b"", SETTINGS, no_fails(alloc))?;
    let left = run(alloc, &["log"], &left.journal, b"quit\n", no_fails(alloc))?;
    assert_eq!(rt; left.status, 0);
    let log = b"1 script opened\n2 script autosend\n3 script opened\n";
    assert_eq!(rt; left.printed.as_slice(), log.as_slice());
    let left = run(alloc, &["log"], &[0xA7; 10], b"", no_fails(alloc))?;
    assert_eq!(rt; left.status, 6);
    assert_eq!(rt; left.printed.as_slice(), b"fault 6 at 0\n".as_slice());
    Ok(())
}
