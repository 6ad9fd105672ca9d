ghost use Rattle.std.specs.Prelude.{◌≡◌, IfOk};
ghost use Rattle.std.specs.Char.{is_ascii_hexdigit};
ghost use Rattle.std.specs.List.{list_all};
ghost use Rattle.std.specs.Option.{option_copied};
ghost use Rattle.hex.specs.Hex.{encode_lower};
ghost use Rattle.md5.specs.Md5.{md5};
ghost use Rattle.field_ids.specs.Hashes.{are_digits, digits_in, hash_of, is_hash, is_hash_of, same_digits, same_hash};

use field_text::{NoMemory, Text};
use md5::{Digest, Md5};
use std::alloc::Global;

/// The hash of a form as a form list writes it: the MD5 digest (RFC 1321) in lower case, behind `md5:`.
pub fn hash_text(alloc: Global, bytes: &[u8]) -> Result<Text, NoMemory>
    ensures { IfOk result (λ text. text ≡ hash_of bytes.now) }
{
    let mut text = String::from_str(alloc, "md5:")?;
    let digits = hex::encode(alloc, Md5::digest(bytes).as_slice())?;
    text.push_str(digits.as_str())?;
    Ok(Text::from_string(text))
}

// What stands behind `md5:` in a text.
fn digits_of(text: &Text) -> Option<&[u8]>
    ensures { option_copied result ≡ digits_in text.now }
{
    text.bytes().strip_prefix(b"md5:".as_slice())
}

fn all_digits(bytes: &[u8]) -> bool
    ensures { result ≡ list_all is_ascii_hexdigit bytes.now }
{
    bytes.iter().all(|byte| byte.is_ascii_hexdigit())
}

fn are_digits(bytes: &[u8]) -> bool
    ensures { result ≡ are_digits bytes.now }
{
    bytes.len() == 32 && all_digits(bytes)
}

/// Whether a form list may give the text as a hash.
pub fn is_hash(text: &Text) -> bool
    ensures { result ≡ is_hash text.now }
{
    match digits_of(text) {
        Some(digits) => are_digits(digits),
        None => false,
    }
}

/// Whether two hashes differ at most in the case of their digits.
pub fn same_hash(a: &Text, b: &Text) -> bool
    ensures { result ≡ same_hash a.now b.now }
{
    match (digits_of(a), digits_of(b)) {
        (Some(a), Some(b)) => a.eq_ignore_ascii_case(b),
        _ => false,
    }
}

fn have_digest(digits: &[u8], bytes: &[u8]) -> bool
    ensures { result ≡ same_digits (Some digits.now) (Some (encode_lower (md5 bytes.now))) }
{
    let mut lower = [0; 32];
    match hex::encode_to_slice(Md5::digest(bytes), lower.as_mut_slice()) {
        Ok(()) => digits.eq_ignore_ascii_case(lower.as_slice()),
        Err(_) => unreachable!(),
    }
}

/// Whether these bytes have the hash, whatever the case of its digits.
pub fn hash_matches(hash: &Text, bytes: &[u8]) -> bool
    ensures { result ≡ is_hash_of hash.now bytes.now }
{
    match digits_of(hash) {
        Some(digits) => have_digest(digits, bytes),
        None => false,
    }
}
