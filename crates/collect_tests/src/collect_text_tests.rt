use collect_text::*;
use device_rules::{Answer, EntryView, FormLine, InstanceLine, Refused, Which};
use device_state::Settings;
use entry_form::{Base, Command, Entry, Hand, How};
use field_text::{Items, Mode, Text};
use form_read::FormRefused;
use instance_store::Status;
use kept_forms::FieldLine;
use question_rules::AnswerRefused;
use std::alloc::Global;
use std::test::Fail;

// Each line, a bar behind it.
#[test]
fn scripts_have_lines(rt: HostRuntime) -> Result<(), Fail> {
    let cases: [(&[u8], &[u8]); 6] = [
        (b"", b""),
        (b"\n", b"|"),
        (b"quit", b"quit|"),
        (b"tick\r\n\nquit", b"tick||quit|"),
        (b"a\r\r\n#\n", b"a\r|#|"),
        (b"a\rb\n\r", b"a\rb||"),
    ];
    for (script, want) in cases {
        let mut found = Vec::new(rt.alloc());
        let mut rest = script;
        for _ in 0..9 {
            let Some((line, behind)) = next_line(rest) else {
                break;
            };
            found.extend_from_slice(without_return(line))?;
            found.push(b'|')?;
            rest = behind;
        }
        assert_eq!(rt; found.as_slice(), want);
    }
    Ok(())
}

// Each word, a bar behind it.
#[test]
fn lines_have_words(rt: HostRuntime) -> Result<(), Fail> {
    let cases: [(&[u8], Option<&[u8]>); 27] = [
        (b"", Some(b"")),
        (b"   ", Some(b"")),
        (b"set autosend on", Some(b"set|autosend|on|")),
        (b"  get   oak~! ", Some(b"get|oak~!|")),
        (b"# \x21", Some(b"#|!|")),
        (b"answer /a \"two  words\"", Some(b"answer|/a|two  words|")),
        (b"\"\" \"#\"  x", Some(b"|#|x|")),
        (b"\"a\\\\b\\\"c\\nd\\re\\tf\"", Some(b"a\\b\"c\nd\re\tf|")),
        (
            &[0x22, 0xC3, 0xA4, 0x7F, 0x22],
            Some(&[0xC3, 0xA4, 0x7F, b'|']),
        ),
        (b"\"\\x41\"", None),
        (b"\"\\", None),
        (b"\"open", None),
        (b"\"open\\\"", None),
        (b"a\tb", None),
        (b"\t", None),
        (b"\"a\tb\"", None),
        (b"a\"b\"", None),
        (b"a\\b", None),
        (b"\"a\"b", None),
        (b"\"a\"\"b\"", None),
        (b"\"a\" \"", None),
        (&[0xC3, 0xA4], None),
        (&[0x7F], None),
        (&[0x22, 0xC3, 0x22], None),
        (&[0x61, 0x20, 0x22, 0xED, 0xA0, 0x80, 0x22], None),
        (b"quit\r", None),
        (&[0x61, 0x00], None),
    ];
    for (line, want) in cases {
        let mut joined = Vec::new(rt.alloc());
        let found = words(rt.alloc(), line)?;
        assert_eq!(rt; found.is_some(), want.is_some(), "{line:?}");
        if let Some(found) = found {
            for word in found.as_slice() {
                joined.extend_from_slice(word.bytes())?;
                joined.push(b'|')?;
            }
        }
        assert_eq!(rt; joined.as_slice(), want.unwrap_or(b""), "{line:?}");
    }
    Ok(())
}

#[test]
fn lines_are_skipped(rt: HostRuntime) {
    let cases: [(&[u8], bool); 9] = [
        (b"", true),
        (b"  ", true),
        (b"#", true),
        (b"# \"", true),
        (b" # x", false),
        (b"quit", false),
        (b"\"", false),
        (b"\"\"", false),
        (b"\t", false),
    ];
    for (line, want) in cases {
        assert_eq!(rt; is_skipped(line), want, "{line:?}");
    }
}

#[test]
fn texts_are_printed(rt: HostRuntime) -> Result<(), Fail> {
    let cases: [(&[u8], &[u8]); 10] = [
        (b"oak", b"oak"),
        (b"/a[1]~#!", b"/a[1]~#!"),
        (b"", b"\"\""),
        (b"two words", b"\"two words\""),
        (b"a\\b", b"\"a\\\\b\""),
        (b"\"", b"\"\\\"\""),
        (b"\n\r\t", b"\"\\n\\r\\t\""),
        (&[0, 1, 0x1B, 0x1F], b"\"\\x00\\x01\\x1b\\x1f\""),
        (&[0xC3, 0xA4], &[0x22, 0xC3, 0xA4, 0x22]),
        (&[0x7F], &[0x22, 0x7F, 0x22]),
    ];
    for (bytes, want) in cases {
        let mut out = Vec::from_slice(rt.alloc(), b"7 ")?;
        let text = Text::from_bytes(rt.alloc(), bytes).ok().ok_or("refused")?;
        print_text(&text, &mut out)?;
        assert!(rt; out.starts_with(b"7 "));
        assert_eq!(rt; &out[2..], want);
    }
    printed_words_are_read();
    Ok(())
}

// What a line asks for, as it is written for debugging.
fn debug_of(alloc: Global, line: &[u8]) -> Result<String, Fail> {
    let read = read_line(alloc, line)?;
    Ok(format!(in alloc; "{read:?}")?)
}

#[test]
fn lines_of_fixed_words_have_meanings(rt: HostRuntime) -> Result<(), Fail> {
    let cases: [(&[u8], &str); 21] = [
        (b"", "Skipped"),
        (b" quit \r", "Quit"),
        (b"quit quit", "Bad"),
        (b"\"quit", "Bad"),
        (b"oak", "Bad"),
        (b"show settings", "Look(Settings)"),
        (b"show forms", "Look(Forms)"),
        (b"show instances", "Look(Instances)"),
        (b"show entry", "Look(EntryNow)"),
        (b"show", "Bad"),
        (b"set \"mode\" exact", "Give(UpdateMode(Exact))"),
        (b"tick", "Give(Tick)"),
        (b"save", "Give(SaveDraft)"),
        (b"save 1", "Bad"),
        (b"leave", "Give(Leave)"),
        (b"finalize", "Give(Finalize)"),
        (b"finalizeall", "Give(FinalizeAll)"),
        (b"send", "Send"),
        (b"update", "NotBuilt"),
        (b"lists", "NotBuilt"),
        (b"settle", "NotBuilt"),
    ];
    for (line, want) in cases {
        let found = debug_of(rt.alloc(), line)?;
        assert_eq!(rt; found.as_str(), want, "{line:?}");
    }
    Ok(())
}

#[test]
fn lines_with_numbers_have_meanings(rt: HostRuntime) -> Result<(), Fail> {
    let cases: [(&[u8], &str); 17] = [
        (b"open 7", "Give(Start { base: Draft(7), how: Fresh })"),
        (
            b"open 0 recover",
            "Give(Start { base: Draft(0), how: Recover })",
        ),
        (
            b"edit 18446744073709551615 discard",
            "Give(Start { base: Edit(18446744073709551615), how: Discard })",
        ),
        (b"open", "Bad"),
        (b"open 07", "Bad"),
        (b"open +7", "Bad"),
        (b"open 7 fresh", "Bad"),
        (b"open 7 recover discard", "Bad"),
        (b"edit 18446744073709551616", "Bad"),
        (b"edit oak", "Bad"),
        (b"drop \"12\"", "Give(DropInstance(12))"),
        (b"drop", "Bad"),
        (b"drop 1 2", "Bad"),
        (b"show doc 3", "Look(DocOf(3))"),
        (b"show doc oak", "Bad"),
        (b"show list", "Bad"),
        (b"show tree 3", "Bad"),
    ];
    for (line, want) in cases {
        let found = debug_of(rt.alloc(), line)?;
        assert_eq!(rt; found.as_str(), want, "{line:?}");
    }
    Ok(())
}

// A bar behind each text; `-` stands where a version is missing.
fn push_start(alloc: Global, base: &Base, how: How, text: &mut Vec<u8>) -> Result<(), Fail> {
    if let Base::Blank { form, version } = base {
        text.extend_from_slice(form.bytes())?;
        text.push(b'|')?;
        match version {
            Some(version) => text.extend_from_slice(version.bytes())?,
            None => text.push(b'-')?,
        }
    }
    let how = format!(in alloc; "|{how:?}")?;
    Ok(text.extend_from_slice(how.as_bytes())?)
}

fn push_command(alloc: Global, command: &Command, text: &mut Vec<u8>) -> Result<(), Fail> {
    match command {
        Command::Start { base, how } => push_start(alloc, base, *how, text)?,
        Command::Fill { path, value } => {
            text.extend_from_slice(path.bytes())?;
            text.push(b'|')?;
            text.extend_from_slice(value.bytes())?;
        }
        Command::Load(bytes) => text.extend_from_slice(bytes.bytes())?,
        Command::DropForm(id) => text.extend_from_slice(id.bytes())?,
        _ => text.extend_from_slice(b"another command")?,
    }
    Ok(())
}

// The texts of the command that a line gives, or what else the line asks for.
fn carried(alloc: Global, line: &[u8]) -> Result<Vec<u8>, Fail> {
    let read = read_line(alloc, line)?;
    let mut text = Vec::new(alloc);
    match &read {
        Line::Give(command) => push_command(alloc, command, &mut text)?,
        Line::Bad => text.extend_from_slice(b"bad")?,
        Line::NotBuilt => text.extend_from_slice(b"not built")?,
        _ => text.extend_from_slice(b"another line")?,
    }
    Ok(text)
}

#[test]
fn lines_with_texts_have_meanings(rt: HostRuntime) -> Result<(), Fail> {
    let cases: [(&[u8], &[u8]); 18] = [
        (b"start a", b"a|-|Fresh"),
        (b"start a recover", b"a|-|Recover"),
        (b"start version", b"version|-|Fresh"),
        (b"start version discard", b"version|-|Discard"),
        (b"start a version 3", b"a|3|Fresh"),
        (b"start a version recover", b"a|recover|Fresh"),
        (b"start a \"version\" \"\" \"discard\"", b"a||Discard"),
        (b"start", b"bad"),
        (b"start a version", b"bad"),
        (b"start a version 3 again", b"bad"),
        (b"start a recover version 3", b"bad"),
        (b"answer /a/b \"two words\"", b"/a/b|two words"),
        (b"answer /a/b", b"bad"),
        (b"load \"<a>\\n</a>\"", b"<a>\n</a>"),
        (b"load", b"bad"),
        (b"dropform tree", b"tree"),
        (b"dropform tree 3", b"bad"),
        (b"get tree", b"not built"),
    ];
    for (line, want) in cases {
        let found = carried(rt.alloc(), line)?;
        assert_eq!(rt; found.as_slice(), want, "{line:?}");
    }
    Ok(())
}

fn text_of(alloc: Global, text: &str) -> Result<Text, Fail> {
    Ok(Text::from_string(String::from_str(alloc, text)?))
}

fn printed(alloc: Global, shape: &Shape, answer: &Answer) -> Result<Vec<u8>, Fail> {
    let mut out = Vec::from_slice(alloc, b"|")?;
    print_answer(alloc, 2, shape, answer, &mut out)?;
    Ok(out)
}

#[test]
fn short_answers_are_printed(rt: HostRuntime) -> Result<(), Fail> {
    let settings = Settings {
        mode: Mode::Previous,
        auto_send: true,
    };
    let cases: [(Shape, Answer, &[u8]); 6] = [
        (Shape::Plain, Answer::Done, b"|2 ok\n"),
        (Shape::Saved, Answer::Number(7), b"|2 saved 7\n"),
        (Shape::Finalized, Answer::Number(7), b"|2 finalized 7\n"),
        (Shape::Plain, Answer::Number(7), b"|2 ok\n"),
        (
            Shape::Plain,
            Answer::Settings(settings),
            b"|2 settings mode previous autosend on\n",
        ),
        (Shape::Plain, Answer::EntryNow(None), b"|2 entry -\n"),
    ];
    for (shape, answer, want) in cases {
        let found = printed(rt.alloc(), &shape, &answer)?;
        assert_eq!(rt; found.as_slice(), want);
    }
    assert!(rt;
        matches!(
            Line::Give(Command::SaveDraft).shape(rt.alloc())?,
            Shape::Saved
        )
    );
    Ok(())
}

#[test]
fn forms_are_printed(rt: HostRuntime) -> Result<(), Fail> {
    let alloc = rt.alloc();
    let mut forms = Items::new(alloc);
    forms.push(FormLine {
        id: text_of(alloc, "tree")?,
        version: text_of(alloc, "")?,
        hash: text_of(alloc, "0a")?,
        visible: true,
    })?;
    forms.push(FormLine {
        id: text_of(alloc, "old tree")?,
        version: text_of(alloc, "3")?,
        hash: text_of(alloc, "0b")?,
        visible: false,
    })?;
    let found = printed(alloc, &Shape::Plain, &Answer::Forms(forms))?;
    let want = b"|2 forms 2\nform tree \"\" 0a visible\nform \"old tree\" 3 0b hidden\n";
    assert_eq!(rt; found.as_slice(), want.as_slice());
    Ok(())
}

fn instance_line(alloc: Global, number: u64, status: Status) -> Result<InstanceLine, Fail> {
    Ok(InstanceLine {
        number,
        status,
        id: text_of(alloc, "tree")?,
        version: text_of(alloc, "3")?,
        instance_id: if status == Status::Sent {
            Some(text_of(alloc, "uuid:1")?)
        } else {
            None
        },
    })
}

#[test]
fn instances_are_printed(rt: HostRuntime) -> Result<(), Fail> {
    let alloc = rt.alloc();
    let mut instances = Items::new(alloc);
    let statuses = [
        Status::Draft,
        Status::Invalid,
        Status::Finalized,
        Status::SendFailed,
        Status::Sent,
    ];
    for status in statuses {
        instances.push(instance_line(alloc, 4, status)?)?;
    }
    let found = printed(alloc, &Shape::Plain, &Answer::Instances(instances))?;
    let want = b"|2 instances 5\ninstance 4 draft tree 3 -\ninstance 4 invalid tree 3 -\n\
        instance 4 finalized tree 3 -\ninstance 4 failed tree 3 -\ninstance 4 sent tree 3 uuid:1\n";
    assert_eq!(rt; found.as_slice(), want.as_slice());
    Ok(())
}

#[test]
fn an_entry_is_printed(rt: HostRuntime) -> Result<(), Fail> {
    let alloc = rt.alloc();
    let mut fields = Items::new(alloc);
    for shown in [true, false] {
        fields.push(FieldLine {
            path: text_of(alloc, "/data/plot")?,
            value: text_of(alloc, "North ridge")?,
            shown,
        })?;
    }
    let view = EntryView {
        id: text_of(alloc, "tree")?,
        version: text_of(alloc, "3")?,
        fields,
    };
    let found = printed(alloc, &Shape::Plain, &Answer::EntryNow(Some(view)))?;
    let want = b"|2 entry tree 3 2\nfield /data/plot \"North ridge\" shown\n\
        field /data/plot \"North ridge\" hidden\n";
    assert_eq!(rt; found.as_slice(), want.as_slice());
    Ok(())
}

fn printed_refusal(alloc: Global, why: &Refused) -> Result<Vec<u8>, Fail> {
    let mut out = Vec::new(alloc);
    match why {
        Refused::NoMemory => {}
        why => print_refused(alloc, 10, why, &mut out)?,
    }
    Ok(out)
}

#[test]
fn refusals_are_printed(rt: HostRuntime) -> Result<(), Fail> {
    let other = Refused::OtherBytes {
        kept: text_of(rt.alloc(), "0a")?,
        new: text_of(rt.alloc(), "0b")?,
    };
    let limit = Refused::Limit {
        which: Which::Instances,
        number: 9,
    };
    let status = Refused::WrongStatus {
        status: Status::SendFailed,
    };
    let cases: [(Refused, &[u8]); 15] = [
        (Refused::BadValue, b"10 refused 1 value\n"),
        (Refused::NoForm, b"10 refused 5 form\n"),
        (Refused::NoVersion, b"10 refused 6 version\n"),
        (Refused::NoInstance, b"10 refused 7 instance\n"),
        (Refused::NoEntry, b"10 refused 8 entry\n"),
        (Refused::EntryThere, b"10 refused 9 entry-there\n"),
        (Refused::SavepointThere, b"10 refused 10 savepoint\n"),
        (Refused::NoSavepoint, b"10 refused 11 no-savepoint\n"),
        (status, b"10 refused 12 status failed\n"),
        (Refused::HasEdit { number: 3 }, b"10 refused 13 edit 3\n"),
        (Refused::InUse { number: 3 }, b"10 refused 14 used 3\n"),
        (
            Refused::Answer(AnswerRefused::BadChar { at: 0 }),
            b"10 refused 15 answer bad-char\n",
        ),
        (
            Refused::FormRefused(FormRefused::TooManyFields { count: 501 }),
            b"10 refused 17 form-refused 10\n",
        ),
        (other, b"10 refused 18 other 0a 0b\n"),
        (limit, b"10 refused 19 limit instances 9\n"),
    ];
    for (why, want) in cases {
        let found = printed_refusal(rt.alloc(), &why)?;
        assert_eq!(rt; found.as_slice(), want);
    }
    Ok(())
}

#[test]
fn words_and_entries_are_printed(rt: HostRuntime) -> Result<(), Fail> {
    let alloc = rt.alloc();
    let mut out = Vec::new(alloc);
    print_word(alloc, 10, &Line::Quit, &mut out)?;
    print_word(alloc, 10, &Line::Bad, &mut out)?;
    print_word(alloc, 10, &Line::NotBuilt, &mut out)?;
    let entry = Entry::Done {
        hand: Hand::Lister,
        command: Command::SaveDraft,
    };
    print_entry(alloc, 1, &entry, &mut out)?;
    print_round(alloc, 24, 2, 4, &mut out)?;
    let want = b"10 bye\n10 bad line\n10 not built\n1 lister savedraft\n24 sent 2 failed 4\n";
    assert_eq!(rt; out.as_slice(), want.as_slice());
    Ok(())
}
