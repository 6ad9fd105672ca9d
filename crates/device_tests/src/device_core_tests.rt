ghost use Rattle.std.specs.Prelude.{IfOk};
ghost use Rattle.device_core.specs.View.{IsReady};

use device_core::*;
use device_rules::{Answer, Caller, Query, Refused, SubmitFault, Told, is_opening};
use disk_model::MemDisk;
use entry_form::{Command, Hand, Opening};
use field_text::{Mode, NoMemory, Text};
use std::alloc::Global;
use std::test::Fail;

fn own_opening(alloc: Global) -> Result<Opening, Fail> {
    let Ok(server) = Text::from_bytes(alloc, b"http://localhost:8080") else {
        return Err("no memory".into());
    };
    Ok(Opening { device: 1, server })
}

fn disk_of(alloc: Global, bytes: &[u8]) -> Result<MemDisk, NoMemory> {
    MemDisk::make(alloc, Vec::from_slice(alloc, bytes)?)
}

// An opening, auto-send on, mode exact.
const IMAGE: &[u8] =
    b"ODKDEV01\xA7\x23\0\0\0\x01\0\x01\0\0\0\0\0\0\0\x15\0\0\0http://localhost:8080\
        \xA7\x03\0\0\0\x02\0\x01\xA7\x03\0\0\0\x03\0\x02\0";

fn opened(alloc: Global, disk: MemDisk) -> Result<Device<MemDisk>, Fail>
    ensures { IfOk result IsReady }
{
    let opening = own_opening(alloc)?;
    if !is_opening(alloc, &opening)? {
        return Err("no opening".into());
    }
    match Device::open_device(alloc, disk, opening) {
        Ok(device) => Ok(device),
        Err(_) => Err("not opened".into()),
    }
}

fn submit(
    alloc: Global,
    device: &mut Device<MemDisk>,
    command: Command,
) -> Result<Told, SubmitFault> {
    device.submit(alloc, Hand::Script, command)
}

// The mode that the device tells.
fn mode(alloc: Global, device: &Device<MemDisk>) -> Option<Mode> {
    mode_of(device.ask(alloc, Hand::Sender, &Query::Settings))
}

// The journal and the number of entries.
fn parts(alloc: Global, device: Device<MemDisk>) -> (MemDisk, usize) {
    let (disk, trail) = device.into_parts(alloc);
    (disk, trail.entries.len())
}

// The positions told for three commands, the last of them refused.
fn submit_three(alloc: Global, device: &mut Device<MemDisk>) -> [u64; 3] {
    [
        position_of(submit(alloc, device, Command::AutoSend(true))),
        position_of(submit(alloc, device, Command::UpdateMode(Mode::Exact))),
        position_of(submit(alloc, device, Command::RoundDone)),
    ]
}

#[test]
fn commands_last(rt: HostRuntime) -> Result<(), Fail> {
    let alloc = rt.alloc();
    let mut device = opened(alloc, disk_of(alloc, b"")?)?;
    let positions = submit_three(alloc, &mut device);
    let mode = mode(alloc, &device);
    let (position, faults) = (device.position(), device.fault_count());
    let (disk, entries) = parts(alloc, device);
    assert_eq!(rt; positions, [2, 3, 13]);
    assert_eq!(rt; mode, Some(Mode::Exact));
    assert_eq!(rt; (position, faults), (3, 0));
    assert_eq!(rt; disk.bytes(), IMAGE);
    assert_eq!(rt; entries, 3);
    an_image_reads_as_one_thing();
    Ok(())
}

// The mode told.
fn mode_of(answer: Result<Told, SubmitFault>) -> Option<Mode> {
    let Ok(told) = answer else {
        return None;
    };
    if let Answer::Settings(settings) = told.answer {
        return Some(settings.mode);
    }
    None
}

// The position told, and 10 more for a refusal.
fn position_of(answer: Result<Told, SubmitFault>) -> u64 {
    match answer {
        Ok(told) => told.position,
        Err(SubmitFault::Refused { position, .. }) => position.saturating_add(10),
        Err(SubmitFault::Full { .. } | SubmitFault::DiskFault | SubmitFault::Failed { .. }) => 99,
    }
}

// A command, a refused one and a query of any caller.
fn play<K: Caller>(alloc: Global, caller: &mut K) -> [u64; 3] {
    [
        position_of(caller.call(alloc, Command::AutoSend(true))),
        position_of(caller.call(alloc, Command::RoundDone)),
        position_of(caller.look(alloc, &Query::Settings)),
    ]
}

#[test]
fn a_hand_calls_a_device(rt: HostRuntime) -> Result<(), Fail> {
    let alloc = rt.alloc();
    let mut caller = DeviceCaller::new(opened(alloc, disk_of(alloc, b"")?)?);
    assert_eq!(rt; play(alloc, &mut caller), [2, 12, 2]);
    assert_eq!(rt; caller.hand(), Hand::Script);
    assert_eq!(rt; caller.due(), 0);
    assert!(rt; caller.closing());
    assert_eq!(rt; caller.into_device().position(), 2);
    Ok(())
}

// Images, and how many entries they stand for or why they aren't opened.
static READINGS: [(&[u8], Result<u64, OpenFault>); 8] = [
    (b"any bytes", Ok(0)),
    (IMAGE, Ok(3)),
    (b"ten bytes!", Err(OpenFault::BadJournal { at: 0 })),
    (
        b"ODKDEV01\xA7\x03\0\0\0\x02\0\x02\0",
        Err(OpenFault::BadEntry { position: 1 }),
    ),
    (
        b"ODKDEV01\xA7\x04\0\0\0\x02\0\x01\x01\0",
        Err(OpenFault::BadEntry { position: 1 }),
    ),
    (
        b"ODKDEV01\xA7\x02\0\0\0\x09\0\0",
        Err(OpenFault::IllegalEntry { position: 1 }),
    ),
    (
        b"ODKDEV01\xA7\x03\0\0\0\x02\0\x01\xA7\x02\0\0\0\x09\0\0",
        Err(OpenFault::IllegalEntry { position: 2 }),
    ),
    (
        b"ODKDEV01\xA7\x02\0\0\0\x14\0\xA7\x01\0\0\0\x15\0",
        Err(OpenFault::BadEntry { position: 2 }),
    ),
];

// The number of entries that opening finds.
fn found_in(alloc: Global, disk: MemDisk) -> Result<Result<u64, OpenFault>, Fail> {
    let opening = own_opening(alloc)?;
    if !is_opening(alloc, &opening)? {
        return Err("no opening".into());
    }
    match Device::open_device(alloc, disk, opening) {
        Ok(device) => Ok(Ok(device.position().saturating_sub(1))),
        Err((_, fault)) => Ok(Err(fault)),
    }
}

#[test]
fn images_are_read(rt: HostRuntime) -> Result<(), Fail> {
    let alloc = rt.alloc();
    for (image, want) in &READINGS {
        assert_eq!(rt; found_in(alloc, disk_of(alloc, image)?)?, *want);
    }
    Ok(())
}
