use form_tokens::*;
use rosa_pieces::Unread;
use std::alloc::Global;
use std::test::Fail;

/// What a token is called here, and its own text or number behind a space.
fn spelled(alloc: Global, token: &Token) -> Result<String, Fail> {
    Ok(match token {
        Token::Digits(value) => format!(in alloc; "digits {value}")?,
        Token::Quoted(text) => format!(in alloc; "quoted {}", text.as_str())?,
        Token::Absolute(path) => format!(in alloc; "absolute {}", path.as_str())?,
        Token::Relative(path) => format!(in alloc; "relative {}", path.as_str())?,
        Token::Name(name) => format!(in alloc; "name {}", name.as_str())?,
        sign => format!(in alloc; "{sign:?}")?,
    })
}

// The text, the token at its front, and how many characters follow it.
static TOKENS: [(&str, &str, usize); 33] = [
    ("7", "digits 7", 0),
    ("007a", "digits 7", 1),
    ("999999999999999", "digits 999999999999999", 0),
    ("1234567890123456", "digits 123456789012345", 1),
    ("1.5", "digits 1", 2),
    ("''", "quoted ", 0),
    ("'a \"b' c", "quoted a \"b", 2),
    ("\"it's\"", "quoted it's", 0),
    ("/a", "absolute /a", 0),
    (
        "/data/meta/entity/@id = ''",
        "absolute /data/meta/entity/@id",
        5,
    ),
    ("/a/@b/c", "absolute /a/@b", 2),
    ("/a/", "absolute /a", 1),
    ("/a//b", "absolute /a", 3),
    ("/a/1", "absolute /a", 2),
    ("/root/item[", "absolute /root/item", 1),
    ("../a", "relative ../a", 0),
    ("../../a/b.c-d e", "relative ../../a/b.c-d", 2),
    ("../a/../b", "relative ../a", 5),
    ("..", "Dot", 1),
    ("../1", "Dot", 3),
    (".", "Dot", 0),
    (".5", "Dot", 1),
    ("count-selected(", "name count-selected", 1),
    ("\u{e9}t\u{e9}:x", "name \u{e9}t\u{e9}", 2),
    ("a - b", "name a", 4),
    ("-1", "Minus", 1),
    ("<=1", "LessEqual", 1),
    ("<1", "Less", 1),
    (">=", "GreaterEqual", 0),
    ("!=", "NotEqual", 0),
    ("==", "Equal", 1),
    ("*(", "Star", 1),
    ("],", "CloseBracket", 1),
];

#[test]
fn tokens_are_told(rt: HostRuntime) -> Result<(), Fail> {
    let alloc = rt.alloc();
    for (text, want, left) in &TOKENS {
        let chars: Vec<char> = text.chars().collect(alloc)?;
        match token_at(alloc, chars.as_slice()) {
            Ok((token, rest)) => {
                assert_eq!(rt; spelled(alloc, &token)?.as_str(), *want);
                assert_eq!(rt; rest.len(), *left, "{text}");
            }
            Err(_) => assert!(rt; false, "{text}"),
        }
    }
    Ok(())
}

#[test]
fn other_characters_begin_no_token(rt: HostRuntime) -> Result<(), Fail> {
    let alloc = rt.alloc();
    let texts = [
        "", " 1", "!1", "'a", "\"a'", "/", "/1", "/@a", "@a", "#", ":", "{", "\t.",
    ];
    for text in texts {
        let chars: Vec<char> = text.chars().collect(alloc)?;
        let read = token_at(alloc, chars.as_slice()).err();
        assert_eq!(rt; read, Some(Unread::Absent), "{text}");
    }
    Ok(())
}

#[test]
fn white_space_is_skipped(rt: HostRuntime) -> Result<(), Fail> {
    let alloc = rt.alloc();
    let cases = [(" \t\r\n1 ", 2), ("\u{a0}1", 2), ("", 0), ("1 ", 2)];
    for (text, left) in cases {
        let chars: Vec<char> = text.chars().collect(alloc)?;
        assert_eq!(rt; past_spaces(chars.as_slice()).len(), left);
    }
    Ok(())
}
