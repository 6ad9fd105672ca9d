//! Requests as bytes.
ghost use Rattle.std.specs.Prelude.{◌≡◌, ◌++◌, IfOk, OnOk};
ghost use Rattle.field_io.specs.Clock.{IsMoment};
ghost use Rattle.http_wire.specs.Requests.{IsDateOf, IsGet, client_fields, closing, field_line, opening};
ghost use Rattle.http_wire.specs.Requests.{request_line};

use crate::Address;
use field_text::{Blob, NoMemory};
use httpdate::HttpDate;
use std::alloc::Global;

/// The date of a moment, as fields hold it (RFC 9110, section 5.6.7).
pub fn date_of(moment: u64) -> [u8; 29]
    requires { IsMoment moment }
    ensures { IsDateOf moment result }
{
    match HttpDate::from_unix_secs(moment) {
        Ok(date) => date.to_bytes(),
        Err(_) => unreachable!(),
    }
}

#[tactic(auto, unfolding(crate::specs::Requests::request_line))]
fn write_request_line(method: &str, target: &[u8], out: &mut Vec<u8>) -> Result<(), NoMemory>
    ensures { OnOk result (out.new.items ≡ out.old.items ++ request_line method.now target.now) }
{
    out.extend_from_slice(method.as_bytes())?;
    out.push(b' ')?;
    out.extend_from_slice(target)?;
    out.extend_from_slice(b" HTTP/1.1")?;
    Ok(out.extend_from_slice(b"\r\n")?)
}

/// Writes the line of a field (RFC 9112, section 5).
#[tactic(auto, unfolding(crate::specs::Requests::field_line))]
pub fn write_field(name: &str, value: &[u8], out: &mut Vec<u8>) -> Result<(), NoMemory>
    ensures { OnOk result (out.new.items ≡ out.old.items ++ field_line name.now value.now) }
{
    out.extend_from_slice(name.as_bytes())?;
    out.extend_from_slice(b": ")?;
    out.extend_from_slice(value)?;
    Ok(out.extend_from_slice(b"\r\n")?)
}

#[tactic(auto, unfolding(crate::specs::Requests::client_fields))]
fn write_client_fields(date: &[u8], out: &mut Vec<u8>) -> Result<(), NoMemory>
    ensures { OnOk result (out.new.items ≡ out.old.items ++ client_fields date.now) }
{
    write_field("X-OpenRosa-Version", b"1.0", out)?;
    write_field("Date", date, out)?;
    write_field("Accept-Encoding", b"identity", out)
}

/// Writes the request line and the fields with which every request begins.
#[tactic(auto, unfolding(crate::specs::Requests::opening))]
pub fn write_opening(
    method: &str,
    address: &Address,
    date: &[u8],
    out: &mut Vec<u8>,
) -> Result<(), NoMemory>
    ensures { OnOk result (out.new.items ≡ out.old.items ++ opening method.now address.now date.now) }
{
    write_request_line(method, address.target.bytes(), out)?;
    write_field("Host", address.authority.bytes(), out)?;
    write_client_fields(date, out)
}

/// Writes the last field of a request's head, and the empty line behind it.
pub fn write_closing(out: &mut Vec<u8>) -> Result<(), NoMemory>
    ensures { OnOk result (out.new.items ≡ out.old.items ++ closing) }
{
    write_field("Connection", b"close", out)?;
    Ok(out.extend_from_slice(b"\r\n")?)
}

/// The request for what stands at an address, with the moment as its date.
pub fn get_text(alloc: Global, address: &Address, moment: u64) -> Result<Blob, NoMemory>
    requires { IsMoment moment }
    ensures { IfOk result (IsGet address.now moment) }
{
    let mut out = Vec::new(alloc);
    write_opening("GET", address, &date_of(moment), &mut out)?;
    write_closing(&mut out)?;
    Ok(Blob::from_vec(out))
}
