//! What a request asks of the server.
ghost use Rattle.std.specs.Prelude.{◌≡◌, ◌≢◌, [], None, IfOk, MatchOption, bytes_eq};
ghost use Rattle.rosa_doc.specs.declared.refusal.DocRefused.TheVariants.{NoMemory as no_memory};
ghost use Rattle.rosa_box.specs.Asked.{Asks, AskedBy, HasId, NamesOrNone, SubmitsOrNone};

use crate::BoxKept;
use field_text::{Blob, NoMemory, Text};
use http_request::{Request, read_request};
use instance_doc::read_instance;
use rosa_doc::DocRefused;
use std::alloc::Global;
use submission_wire::read_submission;

/// What a request asks, whatever the server has.
#[derive(Debug, Drop)]
pub(crate) enum Asked {
    /// It is no request that can be read.
    Unreadable,
    /// What isn't there.
    Elsewhere,
    /// Another thing than to submit, where documents are submitted.
    OtherMethod,
    /// To keep nothing: it has no submission, or one without an instance id.
    Nothing,
    /// To keep this.
    Submission(BoxKept),
}

fn some_id(id: Text) -> Option<Text>
    ensures { MatchOption result (id ≡ []) (λ some. (some ≡ id) × (id ≢ [])) }
{
    if id.bytes().is_empty() {
        return None;
    }
    Some(id)
}

// What is no document has no id; want of memory tells nothing.
fn unread(refusal: DocRefused) -> Result<Option<Text>, NoMemory>
    ensures { IfOk result (λ id. (id ≡ None) × (refusal ≢ no_memory)) }
{
    match refusal {
        DocRefused::NoMemory => Err(NoMemory),
        DocRefused::NotUtf8 { .. } => Ok(None),
        DocRefused::BadMarkup { .. } => Ok(None),
        DocRefused::Unclosed { .. } => Ok(None),
        DocRefused::TooDeep { .. } => Ok(None),
        DocRefused::TooLong { .. } => Ok(None),
        DocRefused::HasDoctype { .. } => Ok(None),
    }
}

// The instance id in a document, where there is one.
fn id_in(alloc: Global, document: &[u8]) -> Result<Option<Text>, NoMemory>
    ensures { IfOk result (NamesOrNone document.now) }
{
    match read_instance(alloc, document) {
        Ok(read) => Ok(some_id(read.instance_id)),
        Err(refusal) => unread(refusal),
    }
}

// The document of a request with its id, where it submits one.
fn submission_in(alloc: Global, request: &Request) -> Result<Option<BoxKept>, NoMemory>
    ensures { IfOk result (SubmitsOrNone request.now) }
{
    let Some(bytes) = read_submission(alloc, request)? else {
        return Ok(None);
    };
    match id_in(alloc, bytes.bytes())? {
        Some(instance_id) => Ok(Some(BoxKept { instance_id, bytes })),
        None => Ok(None),
    }
}

fn is_text(text: &Text, word: &str) -> bool
    ensures { result ≡ bytes_eq text.now word.now }
{
    text.as_str() == word
}

fn asked_by(alloc: Global, request: &Request) -> Result<Asked, NoMemory>
    ensures { IfOk result (AskedBy request.now) }
{
    if !is_text(&request.target, "/submission") {
        return Ok(Asked::Elsewhere);
    }
    if !is_text(&request.method, "POST") {
        return Ok(Asked::OtherMethod);
    }
    match submission_in(alloc, request)? {
        Some(kept) => Ok(Asked::Submission(kept)),
        None => Ok(Asked::Nothing),
    }
}

/// What these bytes ask, as a request.
pub(crate) fn read_asked(alloc: Global, bytes: &[u8]) -> Result<Asked, NoMemory>
    ensures { IfOk result (Asks bytes.now) }
{
    match read_request(alloc, bytes)? {
        Some(request) => asked_by(alloc, &request),
        None => Ok(Asked::Unreadable),
    }
}
