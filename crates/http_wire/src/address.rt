//! Addresses of a server.
ghost use Rattle.std.specs.Prelude.{◌≡◌, ◌||◌, ◌==◌, option_copied, is_some, slice_index, string_bytes, IfOk};
ghost use Rattle.http_uri.specs.Uri.{uri_scheme, uri_authority, uri_path};
ghost use Rattle.http_wire.specs.Addresses as spec;
ghost use Rattle.http_wire.specs.Addresses.{HasAddress};

use field_text::{NoMemory, Text};
use http_uri::{Uri, UriError};
use std::alloc::Global;

/// Where a request goes.
#[derive(Debug, Drop)]
pub struct Address {
    /// The host that is dialed, and perhaps its port.
    pub authority: Text,
    /// What is asked for there.
    pub target: Text,
}

// The authority behind the scheme `http`, where it names no user.
fn http_authority(uri: &Uri) -> Option<&str>
    ensures { option_copied result ≡ spec.http_authority (uri_scheme uri.now) (uri_authority uri.now) }
{
    let Some(scheme) = uri.scheme_str() else {
        return None;
    };
    let Some(authority) = uri.authority() else {
        return None;
    };
    let authority = authority.as_str();
    if scheme == "http" && !authority.as_bytes().contains(&b'@') {
        Some(authority)
    } else {
        None
    }
}

fn without_last_slash(path: &str) -> &str
    ensures { result.now ≡ spec.without_last_slash path.now }
{
    match path.strip_suffix('/') {
        Some(front) => front,
        None => path,
    }
}

fn address_at(alloc: Global, authority: &str, target: String) -> Result<Address, NoMemory>
    ensures { IfOk result (λ a. a ≡ spec.address_at (string_bytes target) authority.now) }
{
    Ok(Address {
        authority: Text::from_string(String::from_str(alloc, authority)?),
        target: Text::from_string(target),
    })
}

// The address of a base.
fn base_of(alloc: Global, uri: &Uri) -> Result<Option<Address>, NoMemory>
    ensures { IfOk result (λ found. found ≡ spec.base_of uri.now) }
{
    if uri.query().is_some() {
        return Ok(None);
    }
    let Some(authority) = http_authority(uri) else {
        return Ok(None);
    };
    let target = String::from_str(alloc, without_last_slash(uri.path()))?;
    Ok(Some(address_at(alloc, authority, target)?))
}

// The path, and behind it the query.
fn target_of(alloc: Global, uri: &Uri) -> Result<String, NoMemory>
    ensures { IfOk result (λ target. string_bytes target ≡ spec.target_of uri.now) }
{
    let mut target = String::from_str(alloc, uri.path())?;
    if let Some(query) = uri.query() {
        target.push_str("?")?;
        target.push_str(query)?;
    }
    Ok(target)
}

fn is_absolute(uri: &Uri) -> bool
    ensures { result ≡ (is_some (uri_scheme uri.now) || is_some (uri_authority uri.now)) }
{
    uri.scheme_str().is_some() || uri.authority().is_some()
}

fn begins_with_slash(path: &str) -> bool
    ensures { result ≡ (slice_index path.now 0 == 47) }
{
    path.as_bytes().first() == Some(&b'/')
}

// The authority of an address beside a base.
fn authority_beside<'a>(base: &'a str, uri: &'a Uri) -> Option<&'a str>
    ensures { option_copied result ≡ spec.authority_beside base.now uri.now }
{
    if is_absolute(uri) {
        return http_authority(uri);
    }
    if begins_with_slash(uri.path()) {
        Some(base)
    } else {
        None
    }
}

fn address_beside(alloc: Global, base: &Address, uri: &Uri) -> Result<Option<Address>, NoMemory>
    ensures { IfOk result (λ found. found ≡ spec.address_beside base.now uri.now) }
{
    let Some(authority) = authority_beside(base.authority.as_str(), uri) else {
        return Ok(None);
    };
    let target = target_of(alloc, uri)?;
    Ok(Some(address_at(alloc, authority, target)?))
}

/// The base of a server's addresses: an absolute form with the scheme `http`, and no user and no query (RFC 3986,
/// section 4.3). The target loses one slash at its end.
pub fn read_base(alloc: Global, text: &Text) -> Result<Option<Address>, NoMemory>
    ensures { IfOk result (HasAddress spec.base_of text.now) }
{
    match Uri::from_bytes(alloc, text.bytes()) {
        Ok(uri) => base_of(alloc, &uri),
        Err(UriError::Invalid(_)) => Ok(None),
        Err(UriError::OutOfMemory) => Err(NoMemory),
    }
}

/// An address that stands beside a base: an absolute form as there, with a query or without one, or a path on the
/// base's authority (RFC 3986, section 4.2).
pub fn read_address(alloc: Global, base: &Address, text: &Text) -> Result<Option<Address>, NoMemory>
    ensures { IfOk result (HasAddress (spec.address_beside base.now) text.now) }
{
    match Uri::from_bytes(alloc, text.bytes()) {
        Ok(uri) => address_beside(alloc, base, &uri),
        Err(UriError::Invalid(_)) => Ok(None),
        Err(UriError::OutOfMemory) => Err(NoMemory),
    }
}
