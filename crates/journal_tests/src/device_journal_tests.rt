use device_journal::*;
use disk_model::{Call, Disk, FusedDisk, MemDisk};
use field_text::{Blob, Items, NoMemory};
use std::alloc::Global;
use std::test::Fail;

fn disk_of(alloc: Global, bytes: &[u8]) -> Result<MemDisk, NoMemory> {
    MemDisk::make(alloc, Vec::from_slice(alloc, bytes)?)
}

fn is_payload(payloads: &Items<Blob>, at: usize, want: &[u8]) -> bool {
    match payloads.get(at) {
        Some(payload) => payload.bytes() == want,
        None => false,
    }
}

// Images, and what they stand for: this many payloads, or the place where they are off.
const IMAGES: [(&[u8], Result<usize, u64>); 14] = [
    (b"", Ok(0)),
    (&[0xA7; 9], Ok(0)),
    (&[0xA7; 10], Err(0)),
    (b"ODKDEV01\x00\xFF", Ok(0)),
    (b"ODKDEV02\x00\xFF", Err(0)),
    (b"ODKDEV01\xA7\x01", Err(8)),
    (b"ODKDEV01\xA7\x01\x00\x00\x00a\x00", Ok(1)),
    (b"ODKDEV01\xA7\x01\x00\x00\x00a", Err(8)),
    (b"ODKDEV01\xA7\x00\x00\x00\x00\x00", Err(8)),
    (b"ODKDEV01\xA7\x02\x00\x00\x00ab\xA6rest", Ok(1)),
    (
        b"ODKDEV01\xA7\x01\x00\x00\x00a\xA7\x01\x00\x00\x00b\x00",
        Ok(2),
    ),
    (
        b"ODKDEV01\xA7\x01\x00\x00\x00a\xA7\x05\x00\x00\x00b\x00",
        Err(14),
    ),
    (b"ODKDEV01\xA7\x01\x00\x00\x01a\x00", Err(8)),
    (b"ODKDEV01\x00\xA7\x01\x00\x00\x00a\x00", Ok(0)),
];

#[test]
fn images_are_read(rt: HostRuntime) -> Result<(), Fail> {
    let alloc = rt.alloc();
    for (image, want) in IMAGES {
        match open_journal(alloc, disk_of(alloc, image)?) {
            Ok((journal, payloads)) => {
                assert_eq!(rt; Ok(payloads.len()), want);
                assert!(rt; journal.length() >= 9);
                assert_eq!(rt; journal.opened(), 1);
            }
            Err((disk, fault)) => {
                let at = want.err().ok_or("refused")?;
                assert_eq!(rt; fault, OpenFault::BadJournal { at });
                assert_eq!(rt; disk.bytes(), image);
            }
        }
    }
    Ok(())
}

#[test]
fn a_payload_is_appended(rt: HostRuntime) -> Result<(), Fail> {
    let alloc = rt.alloc();
    let Ok((mut journal, _)) = open_journal(alloc, disk_of(alloc, b"")?) else {
        return Err("not opened".into());
    };
    assert_eq!(rt; journal.append(b"oak"), Ok(9));
    assert_eq!(rt; journal.length(), 17);
    let disk = journal.into_disk();
    assert_eq!(rt;
        disk.bytes(),
        b"ODKDEV01\xA7\x03\x00\x00\x00oak\x00".as_slice()
    );
    let syncs = disk
        .calls()
        .iter()
        .filter(|c| matches!(c, Call::Sync))
        .count();
    assert_eq!(rt; syncs, 4);
    Ok(())
}

// Opens a journal on a disk that stops at call k, appends two payloads, and gives the disk and how many were answered.
fn run_until(alloc: Global, k: u64) -> Result<(MemDisk, usize), NoMemory> {
    let fused = FusedDisk::make(disk_of(alloc, b"")?, k);
    match open_journal(alloc, fused) {
        Ok((mut journal, _)) => {
            let first = journal.append(b"oak").is_ok();
            let second = journal.append(b"elm").is_ok();
            let done = if second {
                2
            } else if first {
                1
            } else {
                0
            };
            Ok((journal.into_disk().into_disk(), done))
        }
        Err((fused, _)) => Ok((fused.into_disk(), 0)),
    }
}

#[test]
fn what_was_answered_is_found_again(rt: HostRuntime) -> Result<(), Fail> {
    let alloc = rt.alloc();
    for k in 1..16 {
        let (disk, done) = run_until(alloc, k)?;
        let Ok((_, payloads)) = open_journal(alloc, disk) else {
            return Err("not opened again".into());
        };
        let found = payloads.len();
        assert!(rt; found >= done);
        assert!(rt; found - done <= 1);
        assert_eq!(rt; is_payload(&payloads, 0, b"oak"), found > 0);
        assert_eq!(rt; is_payload(&payloads, 1, b"elm"), found > 1);
    }
    Ok(())
}

#[test]
fn a_journal_that_met_a_fault_takes_no_more(rt: HostRuntime) -> Result<(), Fail> {
    let alloc = rt.alloc();
    let fused = FusedDisk::make(disk_of(alloc, b"")?, 7);
    let Ok((mut journal, _)) = open_journal(alloc, fused) else {
        return Err("not opened".into());
    };
    assert_eq!(rt; journal.failed(), None);
    assert_eq!(rt; journal.append(b"oak"), Err(AppendFault::DiskFault));
    assert_eq!(rt; journal.failed(), Some(1));
    assert_eq!(rt;
        journal.append(b"oak"),
        Err(AppendFault::Failed { faults: 1 })
    );
    Ok(())
}
