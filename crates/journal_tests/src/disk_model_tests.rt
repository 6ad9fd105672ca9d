use disk_model::*;
use field_io::Failed;
use std::alloc::Global;
use std::fs::File;
use std::test::Fail;

// Six calls: a look, two writes, a sync between them, a read.
fn play<D: Disk>(disk: &mut D) -> [bool; 6] {
    let mut buf = [0; 4];
    [
        disk.len().is_ok(),
        disk.write_at(0, b"oak").is_ok(),
        disk.sync().is_ok(),
        disk.write_at(0, b"elms").is_ok(),
        disk.read(1, &mut buf).is_ok(),
        disk.sync().is_ok(),
    ]
}

fn empty(alloc: Global) -> Result<MemDisk, field_text::NoMemory> {
    MemDisk::make(alloc, Vec::new(alloc))
}

#[test]
fn a_disk_in_memory_keeps_what_is_written(rt: HostRuntime) -> Result<(), Fail> {
    let alloc = rt.alloc();
    let mut disk = empty(alloc)?;
    assert_eq!(rt; play(&mut disk), [true; 6]);
    assert_eq!(rt; disk.bytes(), b"elms".as_slice());
    assert_eq!(rt; disk.moment(), 6);
    assert_eq!(rt; disk.fault_count(), 0);
    let mut buf = [9; 4];
    assert_eq!(rt; disk.read(1, &mut buf), Ok(3));
    assert_eq!(rt; buf, *b"lms\x09");
    assert_eq!(rt; disk.read(7, &mut buf), Ok(0));
    assert_eq!(rt; disk.len(), Ok(4));
    Ok(())
}

// Which of the six calls go through on a disk that stops at call k, and the bytes that it then has.
const STOPS: [([bool; 6], &[u8]); 7] = [
    ([false, false, false, false, false, false], b""),
    ([true, false, false, false, false, false], b""),
    ([true, true, false, false, false, false], b"oak"),
    ([true, true, true, false, false, false], b"oak"),
    ([true, true, true, true, false, false], b"elms"),
    ([true, true, true, true, true, false], b"elms"),
    ([true, true, true, true, true, true], b"elms"),
];

#[test]
fn a_fused_disk_stops_at_each_call(rt: HostRuntime) -> Result<(), Fail> {
    let alloc = rt.alloc();
    for (k, (answers, bytes)) in (1..8).zip(STOPS) {
        let mut disk = FusedDisk::make(empty(alloc)?, k);
        assert_eq!(rt; play(&mut disk), answers);
        assert_eq!(rt; disk.fault_count(), 7u64.saturating_sub(k));
        assert_eq!(rt; disk.into_disk().bytes(), bytes);
    }
    Ok(())
}

#[test]
fn a_stumbling_disk_goes_on(rt: HostRuntime) -> Result<(), Fail> {
    let alloc = rt.alloc();
    let mut disk = StumbleDisk::make(empty(alloc)?, [2, 6].to_vec(alloc)?);
    assert_eq!(rt; play(&mut disk), [true, false, true, true, true, false]);
    assert_eq!(rt; disk.write_at(0, b"!"), Ok(()));
    assert_eq!(rt; disk.into_disk().bytes(), b"!lms".as_slice());
    Ok(())
}

fn file_disk<'a>(rt: &HostRuntime, path: &'a str) -> FileDisk<LockedFile<'a>, File> {
    FileDisk::new(LockedFile {
        rt: *rt,
        folder: ".",
        path,
    })
}

#[test]
fn a_file_is_a_disk_for_one_at_a_time(rt: HostRuntime) -> Result<(), Fail> {
    let mut disk = file_disk(&rt, "trial.disk");
    let mut want = [true; 6];
    assert_eq!(rt; play(&mut disk), want);
    let mut second = file_disk(&rt, "trial.disk");
    assert_eq!(rt; second.len(), Err(Failed));
    assert!(rt; second.trouble().is_some());
    drop(disk);
    let mut again = file_disk(&rt, "trial.disk");
    let mut buf = [0; 9];
    assert_eq!(rt; again.len(), Ok(4));
    assert_eq!(rt; again.read(1, &mut buf), Ok(3));
    assert_eq!(rt; &buf[..3], b"lms".as_slice());
    want = [false; 6];
    let mut missing = file_disk(&rt, "no/such/folder");
    assert_eq!(rt; play(&mut missing), want);
    assert_eq!(rt; missing.len(), Err(Failed));
    std::fs::remove_file(&rt, "trial.disk")?;
    Ok(())
}
