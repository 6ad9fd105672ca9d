//! The request that submits a document.
ghost use Rattle.std.specs.Prelude.{◌≡◌, ◌++◌, IfOk, OnOk};
ghost use Rattle.field_io.specs.Clock.{IsMoment};
ghost use Rattle.submission_wire.specs.Posts as spec;
ghost use Rattle.submission_wire.specs.Posts.{IsPost};

use field_text::{Blob, NoMemory, Text, decimal_text};
use http_wire::{Address, date_of, write_closing, write_field, write_opening};
use std::alloc::Global;

// What stands before the document in its body.
const PART_HEAD: &[u8] = b"--odk-part\r\n\
    Content-Disposition: form-data; name=\"xml_submission_file\"; filename=\"submission.xml\"\r\n\
    Content-Type: text/xml\r\n\
    \r\n";

fn submission_address(alloc: Global, base: &Address) -> Result<Address, NoMemory>
    ensures { IfOk result (λ address. address ≡ spec.submission_address base.now) }
{
    let mut target = String::from_str(alloc, base.target.as_str())?;
    target.push_str("/submission")?;
    Ok(Address {
        authority: base.authority.copy(alloc)?,
        target: Text::from_string(target),
    })
}

#[tactic(auto, unfolding(crate::specs::Posts::part_head, http_wire::specs::Requests::field_line))]
fn write_part_head(out: &mut Vec<u8>) -> Result<(), NoMemory>
    ensures { OnOk result (out.new.items ≡ out.old.items ++ spec.part_head) }
{
    Ok(out.extend_from_slice(PART_HEAD)?)
}

#[tactic(auto, unfolding(crate::specs::Posts::part_end))]
fn write_part_end(out: &mut Vec<u8>) -> Result<(), NoMemory>
    ensures { OnOk result (out.new.items ≡ out.old.items ++ spec.part_end) }
{
    Ok(out.extend_from_slice(b"\r\n--odk-part--\r\n")?)
}

fn post_body(alloc: Global, document: &[u8]) -> Result<Vec<u8>, NoMemory>
    ensures { IfOk result (λ body. body.items ≡ spec.post_body document.now) }
{
    let mut body = Vec::new(alloc);
    write_part_head(&mut body)?;
    body.extend_from_slice(document)?;
    write_part_end(&mut body)?;
    Ok(body)
}

#[tactic(auto, unfolding(crate::specs::Posts::body_fields))]
fn write_body_fields(alloc: Global, length: usize, out: &mut Vec<u8>) -> Result<(), NoMemory>
    ensures { OnOk result (out.new.items ≡ out.old.items ++ spec.body_fields length) }
{
    let digits = decimal_text(alloc, length as u64)?;
    write_field(
        "Content-Type",
        b"multipart/form-data; boundary=odk-part",
        out,
    )?;
    write_field("Content-Length", digits.bytes(), out)
}

/// The request that submits a document to the server with this base, with the moment, in seconds since 1970, as its
/// date (RFC 7578). It is refused for want of memory alone. `submissions_return` says that a document without a CR
/// comes back out of it.
pub fn post_text(
    alloc: Global,
    base: &Address,
    moment: u64,
    document: &Blob,
) -> Result<Blob, NoMemory>
    requires { IsMoment moment }
    ensures { IfOk result (IsPost base.now moment document.now) }
{
    let address = submission_address(alloc, base)?;
    let body = post_body(alloc, document.bytes())?;
    let mut request = Vec::new(alloc);
    write_opening("POST", &address, &date_of(moment), &mut request)?;
    write_body_fields(alloc, body.len(), &mut request)?;
    write_closing(&mut request)?;
    request.extend_from_slice(&body)?;
    Ok(Blob::from_vec(request))
}
