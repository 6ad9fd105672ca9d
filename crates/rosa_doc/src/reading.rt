ghost use Rattle.std.specs.Prelude.{◌≡◌, true, ◌+◌, ◌≤◌, length, IfOk, IfErr, encode_utf8_all};
ghost use Rattle.std.specs.Str.{chars as chars_of};
ghost use Rattle.rosa_doc.specs.Documents.{past_mark as mark_past, body_of};
ghost use Rattle.rosa_doc.specs.Refusals.{IsDoc, Refuses, is_doctype as doctype, longest_document};
ghost use Rattle.rosa_doc.specs.LocalNames.{has_local_names};
ghost use Rattle.rosa_doc.specs.Reading.{Stopped, state_of, ended_at, refused_before};

use crate::progress::Progress;
use crate::reader::{Ending, read_pieces};
use crate::{Doc, DocRefused};
use std::alloc::{AllocError, Global};

/// How many bytes a document may have.
const LONGEST_DOCUMENT: usize = 262_144;

/// The document that the bytes spell.
pub fn read(alloc: Global, bytes: &[u8]) -> Result<Doc, DocRefused>
    ensures found { IfOk result (λ doc. IsDoc bytes.now doc) }
    ensures refused { IfErr result (λ refusal. Refuses bytes.now refusal) }
    ensures names { IfOk result (λ doc. has_local_names doc.root ≡ true) }
{
    if bytes.len() > LONGEST_DOCUMENT {
        return Err(DocRefused::TooLong {
            length: bytes.len() as u64,
        });
    }
    match std::str::from_utf8(bytes) {
        Ok(text) => read_text(alloc, text),
        Err(error) => Err(DocRefused::NotUtf8 {
            at: error.valid_up_to() as u64,
        }),
    }
}

fn read_text(alloc: Global, text: &str) -> Result<Doc, DocRefused>
    requires { length text.now ≤ longest_document }
    ensures found { IfOk result (λ doc. IsDoc text.now doc) }
    ensures refused { IfErr result (λ refusal. Refuses text.now refusal) }
{
    let chars = chars_of(alloc, text)?;
    let (ending, rest) = read_pieces(alloc, past_mark(chars.as_slice()))?;
    finish(text, ending, rest)
}

/// The characters of a text.
fn chars_of(alloc: Global, text: &str) -> Result<Vec<char>, AllocError>
    ensures { IfOk result (λ v. v.items ≡ chars_of text.now) }
{
    text.chars().collect(alloc)
}

/// What follows a byte order mark.
fn past_mark(chars: &[char]) -> &[char]
    ensures { result.now ≡ mark_past chars.now }
{
    match chars {
        ['\u{FEFF}', rest @ ..] => rest,
        _ => chars,
    }
}

/// The document, or the refusal where the reader stopped.
fn finish(text: &str, ending: Ending, rest: &[char]) -> Result<Doc, DocRefused>
    requires long { length text.now ≤ longest_document }
    requires stopped { Stopped (body_of text.now) ending rest.now }
    ensures found { IfOk result (λ doc. IsDoc text.now doc) }
    ensures refused { IfErr result (λ refusal. Refuses text.now refusal) }
{
    let at = place_before(text.len(), rest);
    match ending {
        Ending::Deep => Err(DocRefused::TooDeep { at }),
        Ending::Stuck => Err(refusal_before(at, rest)),
        Ending::End(progress) => {
            if rest.is_empty() {
                ended(progress, at)
            } else {
                Err(refusal_before(at, rest))
            }
        }
    }
}

/// The document, if its root has ended.
fn ended(progress: Progress, at: u64) -> Result<Doc, DocRefused>
    ensures { result ≡ ended_at (state_of progress) at }
{
    match progress {
        Progress::After(root) => Ok(Doc { root }),
        Progress::Before | Progress::Within(_, _) => Err(DocRefused::Unclosed { at }),
    }
}

/// The refusal of what can't stand there.
fn refusal_before(at: u64, rest: &[char]) -> DocRefused
    ensures { result ≡ refused_before at rest.now }
{
    if is_doctype(rest) {
        DocRefused::HasDoctype { at }
    } else {
        DocRefused::BadMarkup { at }
    }
}

/// The place in bytes of what stands at the end of so many bytes.
fn place_before(len: usize, rest: &[char]) -> u64
    requires { length (encode_utf8_all rest.now) ≤ len }
    ensures { result + length (encode_utf8_all rest.now) ≡ len }
{
    let mut at = len;
    for c in rest {
        at -= c.len_utf8();
    }
    at as u64
}

/// Whether a document type declaration begins here.
fn is_doctype(rest: &[char]) -> bool
    ensures { result ≡ doctype rest.now }
{
    rest.starts_with(&['<', '!', 'D', 'O', 'C', 'T', 'Y', 'P', 'E'])
}
