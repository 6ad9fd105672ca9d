use field_text::*;
use std::test::Fail;

#[test]
fn texts_are_utf8(rt: HostRuntime) -> Result<(), Fail> {
    let alloc = rt.alloc();
    let cases: [(&[u8], Option<usize>); 8] = [
        (b"", None),
        (b"oak", None),
        (&[0xC3, 0xA4], None),
        (&[0x61, 0xC3], Some(1)),
        (&[0xFF], Some(0)),
        (&[0x61, 0x62, 0xED, 0xA0, 0x80], Some(2)),
        (&[0xF0, 0x9F, 0x8C, 0xB3, 0x80], Some(4)),
        (&[0xC0, 0x80], Some(0)),
    ];
    for (bytes, want) in cases {
        match Text::from_bytes(alloc, bytes) {
            Ok(text) => {
                assert!(rt; want.is_none());
                assert!(rt; text.bytes() == bytes);
                let copy = text.copy(alloc)?;
                assert!(rt; copy.same(&text));
            }
            Err(refused) => {
                let at = want.ok_or("refused")?;
                assert_eq!(rt; refused, TextRefused::NotUtf8 { at });
            }
        }
    }
    Ok(())
}

#[test]
fn blobs_keep_their_bytes(rt: HostRuntime) -> Result<(), Fail> {
    let blob = Blob::from_bytes(rt.alloc(), &[1, 0, 255])?;
    let copy = blob.copy(rt.alloc())?;
    assert_eq!(rt; copy.bytes(), [1, 0, 255].as_slice());
    Ok(())
}

#[test]
fn decimals_are_read_and_written(rt: HostRuntime) -> Result<(), Fail> {
    let cases: [(&[u8], Option<u64>); 9] = [
        (b"0", Some(0)),
        (b"7", Some(7)),
        (b"007", None),
        (b"", None),
        (b"+7", None),
        (b"-7", None),
        (b"7 ", None),
        (b"18446744073709551615", Some(u64::MAX)),
        (b"18446744073709551616", None),
    ];
    for (bytes, want) in cases {
        assert_eq!(rt; read_decimal(bytes), want);
        if let Some(value) = want {
            let text = decimal_text(rt.alloc(), value)?;
            assert!(rt; text.bytes() == bytes);
        }
    }
    Ok(())
}

#[test]
fn characters_and_names_of_documents(rt: HostRuntime) -> Result<(), Fail> {
    use field_text::xml::{is_local_name, is_xml_char, is_xml_space, xml_char_of};
    let allowed = [
        ('\t', true),
        ('\u{0B}', false),
        ('\u{1F}', false),
        (' ', true),
        ('\u{7F}', true),
        ('\u{D7FF}', true),
        ('\u{FFFD}', true),
        ('\u{FFFE}', false),
        ('\u{10FFFF}', true),
    ];
    for (c, want) in allowed {
        assert_eq!(rt; is_xml_char(c), want);
        assert_eq!(rt; xml_char_of(c) == c, want);
    }
    assert!(rt; is_xml_space('\r') && !is_xml_space('\u{A0}'));
    let names = [
        ("", false),
        ("a", true),
        ("_a.b-c9", true),
        ("9a", false),
        ("-a", false),
        ("a:b", false),
        ("\u{E9}tat", true),
        ("a\u{FFFE}", false),
        ("a b", false),
    ];
    for (name, want) in names {
        assert_eq!(rt; is_local_name(name), want, "{name}");
    }
    Ok(())
}
