use entry_codec::*;
use std::alloc::Global;
use std::test::Fail;

// Whether an entry that is told so is read from these bytes, whatever follows, and is spelled in them again.
fn is_spelling_of(alloc: Global, bytes: &[u8], told: &[u8]) -> Result<bool, Fail> {
    let mut longer = Vec::from_slice(alloc, bytes)?;
    longer.push(0x02)?;
    let (entry, used) = read_entry(alloc, &longer)?;
    let debug = format!(in alloc; "{entry:?}")?;
    let mut out = vec![in alloc; 0x7f]?;
    spell(alloc, &entry, &mut out)?;
    longer.pop();
    longer.insert(0, 0x7f)?;
    Ok(used == bytes.len() && debug.as_bytes() == told && out.as_slice() == longer.as_slice())
}

// The bytes of an entry of each kind, and the entry as it is told.
static SPELLINGS: [(&[u8], &[u8]); 23] = [
    (
        b"\x01\x00\x07\x00\x00\x00\x00\x00\x00\x00\x15\x00\x00\x00http://localhost:8080",
        b"Opened(Opening { device: 7, server: Text { inner: \"http://localhost:8080\" } })",
    ),
    (
        b"\x02\x00\x01",
        b"Done { hand: Script, command: AutoSend(true) }",
    ),
    (
        b"\x03\x02\x02",
        b"Done { hand: Updater, command: UpdateMode(Exact) }",
    ),
    (
        b"\x04\x01\x02",
        b"Done { hand: Sender, command: TakeLock(Send) }",
    ),
    (
        b"\x05\x03\x00",
        b"Done { hand: Lister, command: Release(Forms) }",
    ),
    (
        b"\x06\x00\x03\x00\x00\x00\xff\x00a",
        b"Done { hand: Script, command: Load(Blob { bytes: [255, 0, 97] }) }",
    ),
    (
        b"\x07\x00\x02\x00\x00\x00\xc3\xa4",
        b"Done { hand: Script, command: Ask(Text { inner: \"\xc3\xa4\" }) }",
    ),
    (
        b"\x08\x02\x05\x00\x00\x00\x00\x00\x00\x00\x00\x01\x00\x00\x00\x00\x00\x00\x00\x01\x00\x00\x00x",
        b"Done { hand: Updater, command: Fetched { job: 5, at: 256, outcome: Reply(Blob { bytes: [120] }) } }",
    ),
    (b"\x09\x03", b"Done { hand: Lister, command: RoundDone }"),
    (
        b"\x0a\x00\x01\x00\x00\x00t",
        b"Done { hand: Script, command: DropForm(Text { inner: \"t\" }) }",
    ),
    (
        b"\x0b\x00\x00\x04\x00\x00\x00tree\x00\x00",
        b"Done { hand: Script, command: Start { base: Blank { form: Text { inner: \"tree\" }, \
            version: None }, how: Fresh } }",
    ),
    (
        b"\x0b\x00\x00\x01\x00\x00\x00t\x01\x02\x00\x00\x0012\x01",
        b"Done { hand: Script, command: Start { base: Blank { form: Text { inner: \"t\" }, \
            version: Some(Text { inner: \"12\" }) }, how: Recover } }",
    ),
    (
        b"\x0b\x00\x01\x03\x00\x00\x00\x00\x00\x00\x00\x02",
        b"Done { hand: Script, command: Start { base: Draft(3), how: Discard } }",
    ),
    (
        b"\x0b\x00\x02\xff\xff\xff\xff\xff\xff\xff\xff\x00",
        b"Done { hand: Script, command: Start { base: Edit(18446744073709551615), how: Fresh } }",
    ),
    (
        b"\x0c\x00\x02\x00\x00\x00/a\x00\x00\x00\x00",
        b"Done { hand: Script, command: Fill { path: Text { inner: \"/a\" }, value: Text { inner: \"\" } } }",
    ),
    (b"\x0d\x00", b"Done { hand: Script, command: SaveDraft }"),
    (b"\x0e\x00", b"Done { hand: Script, command: Leave }"),
    (b"\x0f\x00", b"Done { hand: Script, command: Finalize }"),
    (b"\x10\x00", b"Done { hand: Script, command: FinalizeAll }"),
    (
        b"\x11\x00\x09\x00\x00\x00\x00\x00\x00\x00",
        b"Done { hand: Script, command: DropInstance(9) }",
    ),
    (
        b"\x12\x01\x01\x00\x00\x00\x00\x00\x00\x00\x02\x00\x00\x00\x00\x00\x00\x00",
        b"Done { hand: Sender, command: SendBegun { number: 1, at: 2 } }",
    ),
    (
        b"\x13\x01\x01\x00\x00\x00\x00\x00\x00\x00\x01\x02",
        b"Done { hand: Sender, command: SendEnded { number: 1, outcome: Fault(Take) } }",
    ),
    (b"\x14\x00", b"Done { hand: Script, command: Tick }"),
];

#[test]
fn every_kind_is_spelled_and_read(rt: HostRuntime) -> Result<(), Fail> {
    for (bytes, want) in &SPELLINGS {
        assert!(rt; is_spelling_of(rt.alloc(), bytes, want)?);
    }
    no_spelling_begins_another();
    Ok(())
}

#[test]
fn refusals_have_their_place(rt: HostRuntime) {
    let rows: [(&[u8], usize); 21] = [
        (b"", 0),
        (b"\x00\x00", 0),
        (b"\x15\x00", 0),
        (b"\x02", 1),
        (b"\x02\x04", 1),
        (b"\x01\x01", 1),
        (b"\x02\x00", 2),
        (b"\x02\x00\x02", 2),
        (b"\x03\x00\x03", 2),
        (b"\x05\x00\x02", 2),
        (b"\x01\x00\x07\x00\x00\x00\x00\x00\x00", 2),
        (b"\x01\x00\x07\x00\x00\x00\x00\x00\x00\x00\x15\x00", 10),
        (b"\x06\x00\x03\x00\x00\x00ab", 2),
        (b"\x07\x00\x02\x00\x00\x00a\xff", 2),
        (b"\x0c\x00\x01\x00\x00\x00a\x01\x00\x00\x00\x80", 7),
        (b"\x0b\x00\x03", 2),
        (b"\x0b\x00\x00\x01\x00\x00\x00t\x02", 8),
        (b"\x0b\x00\x00\x01\x00\x00\x00t\x01\x01\x00\x00\x00", 9),
        (b"\x0b\x00\x00\x01\x00\x00\x00t\x00\x03", 9),
        (b"\x13\x01\x01\x00\x00\x00\x00\x00\x00\x00\x02", 10),
        (b"\x13\x01\x01\x00\x00\x00\x00\x00\x00\x00\x01\x03", 11),
    ];
    for (bytes, at) in rows {
        match read_entry(rt.alloc(), bytes) {
            Ok((entry, used)) => assert!(rt; false, "{entry:?} of {used}, not a fault at {at}"),
            Err(why) => assert_eq!(rt; why, EntryRefused::BadSpelling { at }),
        }
    }
}
