use field_ids::*;
use field_text::Text;
use std::test::Fail;

#[test]
fn ids_have_their_text(rt: HostRuntime) -> Result<(), Fail> {
    let cases: [(u64, u64, &str); 4] = [
        (1, 2, "00000000-0001-8000-8000-000000000002"),
        (0, 0, "00000000-0000-8000-8000-000000000000"),
        (
            0xABCD_EF01_2345,
            0x0123_4567_89AB_CDEF,
            "abcdef01-2345-8000-8123-456789abcdef",
        ),
        (
            0xFFFF_FFFF_FFFF,
            0x3FFF_FFFF_FFFF_FFFF,
            "ffffffff-ffff-8000-bfff-ffffffffffff",
        ),
    ];
    for (device, counter, want) in cases {
        assert!(rt; device < 0x1_0000_0000_0000 && counter < 0x4000_0000_0000_0000);
        let text = draw(device, counter).text(rt.alloc())?;
        assert_eq!(rt; text.as_str(), want);
    }
    Ok(())
}

#[test]
fn hashes_match_their_bytes(rt: HostRuntime) -> Result<(), Fail> {
    // The test suite of RFC 1321, appendix A.5.
    let cases: [(&[u8], &str); 4] = [
        (b"", "md5:d41d8cd98f00b204e9800998ecf8427e"),
        (b"a", "md5:0cc175b9c0f1b6a831c399e269772661"),
        (b"abc", "md5:900150983cd24fb0d6963f7d28e17f72"),
        (b"message digest", "md5:f96b697d7cb7938d525a2f31aaf161d0"),
    ];
    for (bytes, want) in cases {
        let hash = hash_text(rt.alloc(), bytes)?;
        assert_eq!(rt; hash.as_str(), want);
        assert!(rt; hash_matches(&hash, bytes));
        assert!(rt; !hash_matches(&hash, b"other"));
        assert!(rt; is_hash(&hash));
    }
    Ok(())
}

#[test]
fn hashes_are_told_from_other_texts(rt: HostRuntime) -> Result<(), Fail> {
    // The text, whether it is a hash, and whether it is that of no bytes.
    let lower = Text::from_bytes(rt.alloc(), b"md5:d41d8cd98f00b204e9800998ecf8427e")?;
    let cases: [(&str, bool, bool); 9] = [
        ("md5:D41D8CD98F00B204E9800998ECF8427E", true, true),
        ("md5:D41d8cd98f00b204e9800998ecf8427E", true, true),
        ("md5:d41d8cd98f00b204e9800998ecf8427f", true, false),
        ("MD5:d41d8cd98f00b204e9800998ecf8427e", false, false),
        ("md5:d41d8cd98f00b204e9800998ecf8427", false, false),
        ("md5:d41d8cd98f00b204e9800998ecf8427e0", false, false),
        ("md5:g41d8cd98f00b204e9800998ecf8427e", false, false),
        ("d41d8cd98f00b204e9800998ecf8427e", false, false),
        ("", false, false),
    ];
    for (text, hash, of_nothing) in cases {
        let text = Text::from_bytes(rt.alloc(), text.as_bytes())?;
        assert_eq!(rt; is_hash(&text), hash);
        assert_eq!(rt; hash_matches(&text, b""), of_nothing);
        assert_eq!(rt; same_hash(&lower, &text), of_nothing);
    }
    Ok(())
}
