ghost use Rattle.std.specs.Prelude.{◌≡◌, ◌≢◌, ◌↔◌, [], ◌∷◌, ◌<◌, ◌≤◌, length, IsTrue, IfOk, IfSome, MatchOption};
ghost use Rattle.std.specs.Prelude.{Some, None, slice_index, true, false};
ghost use Rattle.std.specs.Str.{is_utf8};
ghost use Rattle.collect_text.specs.Words.{is_bare, unescaped, spelled, between, quoted, bare, closed, byte_then};
ghost use Rattle.collect_text.specs.Words.{words_of, is_comment, is_skipped};
ghost use Rattle.collect_text.specs.Parts.{word_then, ends_word};

use field_text::{Items, NoMemory, Text};
use std::alloc::Global;

/// Whether a byte may stand in a bare word.
pub(crate) fn is_bare(byte: u8) -> bool
    ensures { result ≡ is_bare byte }
{
    byte.is_ascii_graphic() && byte != b'"' && byte != b'\\'
}

// What a backslash and a byte stand for.
fn unescaped(byte: u8) -> Option<u8>
    ensures { result ≡ unescaped byte }
{
    match byte {
        b'\\' | b'"' => Some(byte),
        b'n' => Some(b'\n'),
        b'r' => Some(b'\r'),
        b't' => Some(b'\t'),
        _ => None,
    }
}

// The bytes without the spaces in front of them.
fn skip_spaces(bytes: &[u8]) -> &[u8]
    ensures words { spelled between result.now ≡ spelled between bytes.now }
    ensures word { slice_index result.now 0 ≢ 32 }
    ensures within { length result.now ≤ length bytes.now }
{
    let mut rest = bytes;
    while let Some((first, behind)) = rest.split_first() {
        if *first != b' ' {
            return rest;
        }
        rest = behind;
    }
    rest
}

// Whether a word may end in front of these bytes.
fn ends_word(bytes: &[u8]) -> bool
    ensures { result ≡ ends_word bytes.now }
{
    match bytes.split_first() {
        Some((first, _)) => *first == b' ',
        None => true,
    }
}

// A bare word at the front of the bytes, and what is behind it.
fn bare_word(alloc: Global, bytes: &[u8]) -> Result<Option<(Vec<u8>, &[u8])>, NoMemory>
    requires some { 0 < length bytes.now }
    requires word { slice_index bytes.now 0 ≢ 32 }
    ensures found { IfOk result (λ found. MatchOption found (spelled bare bytes.now ≡ None)
        (λ word. spelled bare bytes.now ≡ word_then word.0.items (spelled between word.1.now))) }
    ensures shorter { IfOk result (λ found. IfSome found (λ word. length word.1.now < length bytes.now)) }
{
    let mut word = Vec::new(alloc);
    let mut rest = bytes;
    while let Some((first, behind)) = rest.split_first() {
        if *first == b' ' {
            return Ok(Some((word, rest)));
        }
        if !is_bare(*first) {
            return Ok(None);
        }
        word.push(*first)?;
        rest = behind;
    }
    Ok(Some((word, rest)))
}

// What the front of the bytes between quotes means, and what is behind it: one byte, or an escape of two.
fn quoted_byte(bytes: &[u8]) -> Option<(u8, &[u8])>
    requires { slice_index bytes.now 0 ≢ 34 }
    ensures found { MatchOption result (spelled quoted bytes.now ≡ None)
        (λ byte. spelled quoted bytes.now ≡ byte_then byte.0 (spelled quoted byte.1.now)) }
    ensures shorter { IfSome result (λ byte. length byte.1.now < length bytes.now) }
{
    let (first, behind) = bytes.split_first()?;
    if *first == b'\\' {
        let (escape, behind) = behind.split_first()?;
        Some((unescaped(*escape)?, behind))
    } else if *first < b' ' {
        None
    } else {
        Some((*first, behind))
    }
}

// A quoted word behind its first quote, and what is behind it.
fn quoted_word(alloc: Global, bytes: &[u8]) -> Result<Option<(Vec<u8>, &[u8])>, NoMemory>
    ensures found { IfOk result (λ found. MatchOption found (spelled quoted bytes.now ≡ None)
        (λ word. spelled quoted bytes.now ≡ word_then word.0.items (spelled between word.1.now))) }
    ensures within { IfOk result (λ found. IfSome found (λ word. length word.1.now ≤ length bytes.now)) }
{
    let mut word = Vec::new(alloc);
    let mut rest = bytes;
    while let Some((first, behind)) = rest.split_first() {
        if *first == b'"' {
            if !ends_word(behind) {
                return Ok(None);
            }
            return Ok(Some((word, behind)));
        }
        let Some((byte, behind)) = quoted_byte(rest) else {
            return Ok(None);
        };
        word.push(byte)?;
        rest = behind;
    }
    Ok(None)
}

// The word at the front of the bytes, and what is behind it.
fn raw_word(alloc: Global, bytes: &[u8]) -> Result<Option<(Vec<u8>, &[u8])>, NoMemory>
    requires some { 0 < length bytes.now }
    requires word { slice_index bytes.now 0 ≢ 32 }
    ensures found { IfOk result (λ found. MatchOption found (spelled between bytes.now ≡ None)
        (λ word. spelled between bytes.now ≡ word_then word.0.items (spelled between word.1.now))) }
    ensures shorter { IfOk result (λ found. IfSome found (λ word. length word.1.now < length bytes.now)) }
{
    match bytes.split_first() {
        Some((first, inside)) if *first == b'"' => quoted_word(alloc, inside),
        _ => bare_word(alloc, bytes),
    }
}

// The text of a word, none where its bytes are no UTF-8.
fn text_of(word: Vec<u8>) -> Option<Text>
    ensures { MatchOption result (is_utf8 word.items ≡ false)
        (λ text. (is_utf8 word.items ≡ true) × (text ≡ word.items)) }
{
    match String::from_utf8(word) {
        Ok(text) => Some(Text::from_string(text)),
        Err(_) => None,
    }
}

/// The words of a line, none where it spells no words.
pub fn words(alloc: Global, line: &[u8]) -> Result<Option<Items<Text>>, NoMemory>
    ensures { IfOk result (λ found. found ≡ words_of line.now) }
{
    let mut words = Items::new(alloc);
    let mut rest = skip_spaces(line);
    while !rest.is_empty() {
        let Some((word, behind)) = raw_word(alloc, rest)? else {
            return Ok(None);
        };
        let Some(text) = text_of(word) else {
            return Ok(None);
        };
        words.push(text)?;
        rest = skip_spaces(behind);
    }
    Ok(Some(words))
}

fn is_comment(line: &[u8]) -> bool
    ensures { result ≡ is_comment line.now }
{
    match line.split_first() {
        Some((first, _)) => *first == b'#',
        None => false,
    }
}

/// Whether a line says nothing: it has no words, or its first byte is `#`.
pub fn is_skipped(line: &[u8]) -> bool
    ensures { result ≡ is_skipped line.now }
{
    is_comment(line) || skip_spaces(line).is_empty()
}
