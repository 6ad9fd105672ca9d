use rosa_pieces::*;
use std::alloc::Global;
use std::process::Abort;
use std::test::Fail;

/// What kind a piece is.
fn kind_of(piece: &Piece) -> &'static str {
    match piece {
        Piece::Start(_) => "start",
        Piece::Empty(_) => "empty",
        Piece::End(_) => "end",
        Piece::Comment => "comment",
        Piece::Instruction => "instruction",
        Piece::Data(CharData::Literal(_)) => "literal",
        Piece::Data(CharData::Reference(_)) => "reference",
    }
}

static PIECES: [(&str, &str, usize); 69] = [
    ("", "", 0),
    ("a", "literal", 1),
    ("\u{1}", "", 0),
    ("\u{FFFE}", "", 0),
    (">", "literal", 1),
    ("]]>", "literal", 1),
    ("&amp;b", "reference", 5),
    ("&apos;", "reference", 6),
    ("&AMP;", "", 0),
    ("&nbsp;", "", 0),
    ("&;", "", 0),
    ("&amp", "", 0),
    ("& amp;", "", 0),
    ("&#65;", "reference", 5),
    ("&#00065;", "reference", 8),
    ("&#x41;", "reference", 6),
    ("&#X41;", "", 0),
    ("&#;", "", 0),
    ("&#x;", "", 0),
    ("&#4a;", "", 0),
    ("&#0;", "", 0),
    ("&#xD800;", "", 0),
    ("&#x10FFFF;", "reference", 10),
    ("&#x110000;", "", 0),
    ("&#99999999999999999999;", "", 0),
    ("<a>", "start", 3),
    ("<a >", "start", 4),
    ("< a>", "", 0),
    ("<a/>", "empty", 4),
    ("<a / >", "", 0),
    ("<a", "", 0),
    ("<>", "", 0),
    ("<9>", "", 0),
    ("<a:b>", "start", 5),
    ("<a:b:c>", "", 0),
    ("<:a>", "", 0),
    ("<a:>", "", 0),
    ("<a b='1'>", "start", 9),
    ("<a b=\"'\">", "start", 9),
    ("<a b = '1' c=\"2\"/>", "empty", 18),
    ("<a b='1'c='2'>", "", 0),
    ("<a b='1' b='2'>", "", 0),
    ("<a p:b='1' q:b='2'>", "start", 19),
    ("<a b='<'>", "", 0),
    ("<a b='>'>", "start", 9),
    ("<a b='&'>", "", 0),
    ("<a b='&lt;'>", "start", 12),
    ("<a b=1>", "", 0),
    ("<a b>", "", 0),
    ("<a xmlns='u' xmlns:x='v'>", "start", 25),
    ("</a>", "end", 4),
    ("</a >", "end", 5),
    ("</ a>", "", 0),
    ("</a b='1'>", "", 0),
    ("<!---->", "comment", 7),
    ("<!-->-->", "comment", 8),
    ("<!-->", "", 0),
    ("<!--a-b-->", "comment", 10),
    ("<!--a--->", "comment", 9),
    ("<!--a--b-->", "", 0),
    ("<!--a---->", "", 0),
    ("<!--\u{2}-->", "", 0),
    ("<!-- <a> & -->", "comment", 14),
    ("<??>", "instruction", 4),
    ("<?>", "", 0),
    ("<?xml version='1.0'?>", "instruction", 21),
    ("<?a?b?>", "instruction", 7),
    ("<![CDATA[a]]>", "", 0),
    ("<!DOCTYPE a>", "", 0),
];

fn check_piece(
    rt: &impl Abort,
    alloc: Global,
    text: &str,
    kind: &str,
    len: usize,
) -> Result<(), Fail> {
    let chars: Vec<char> = text.chars().collect(alloc)?;
    match piece_at(alloc, chars.as_slice()) {
        Ok((piece, rest)) => {
            assert_eq!(rt; kind_of(&piece), kind, "{text}");
            assert!(rt; rest.len() <= chars.len());
            assert_eq!(rt; chars.len() - rest.len(), len, "{text}");
        }
        Err(Unread::Absent) => assert_eq!(rt; kind, "", "{text}"),
        Err(Unread::NoMemory) => assert!(rt; false),
    }
    Ok(())
}

#[test]
fn pieces_at_the_front(rt: HostRuntime) -> Result<(), Fail> {
    for (text, kind, len) in &PIECES {
        check_piece(&rt, rt.alloc(), text, kind, *len)?;
    }
    Ok(())
}

static VALUES: [(&str, &str); 8] = [
    ("<a b='x y'>", "x y"),
    ("<a b='x\ty\nz'>", "x y z"),
    ("<a b='x\r\ny\rz\r\r\n'>", "x y z  "),
    ("<a b='&#9;&#10;&#13;&#13;&#10;'>", "\t\n\r\r\n"),
    ("<a b='\r&#10;'>", " \n"),
    ("<a b='&#13;\n'>", "\r "),
    ("<a b='&quot;&apos;&#xE9;'>", "\"'\u{E9}"),
    ("<a b=''>", ""),
];

fn check_value(rt: &impl Abort, alloc: Global, text: &str, want: &str) -> Result<(), Fail> {
    let chars: Vec<char> = text.chars().collect(alloc)?;
    let found = piece_at(alloc, chars.as_slice()).ok();
    assert!(rt; found.is_some());
    if let Some((Piece::Start(tag), _)) = &found {
        for attribute in tag.attributes.as_slice() {
            assert_eq!(rt; attribute.value.as_str(), want, "{text}");
            assert!(rt; !attribute.name.same(&tag.name));
        }
    }
    Ok(())
}

#[test]
fn values_are_normalised(rt: HostRuntime) -> Result<(), Fail> {
    for (text, want) in &VALUES {
        check_value(&rt, rt.alloc(), text, want)?;
    }
    Ok(())
}
