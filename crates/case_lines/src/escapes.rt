ghost use Rattle.std.specs.Prelude.{◌≡◌, ◌≤◌, length, ◌++◌, ◌∷◌, [], IfOk, OnOk, string_bytes};
ghost use Rattle.std.specs.Str.{IsUtf8};
ghost use Rattle.case_lines.specs.Escapes.{short_escape, digit_value, number_of, numbered, repeated};
ghost use Rattle.case_lines.specs.Escapes.{place_of, before, behind, hexadecimal, repetition, escape, front, bytes_of};

use std::alloc::{AllocError, Global};

fn push_short_escape(letter: u8, out: &mut Vec<u8>) -> Result<(), AllocError>
    ensures { OnOk result (out.new.items ≡ out.old.items ++ short_escape letter) }
{
    match letter {
        b'n' => out.push(b'\n')?,
        b'r' => out.push(b'\r')?,
        b't' => out.push(b'\t')?,
        b'\\' => out.push(b'\\')?,
        _ => {}
    }
    Ok(())
}

fn digit_value(digit: u8) -> u8
    ensures { result ≡ digit_value digit }
{
    if digit >= b'0' && digit <= b'9' {
        digit - b'0'
    } else if digit >= b'A' && digit <= b'F' {
        digit - b'A' + 10
    } else {
        0
    }
}

fn number_of(digits: &[u8]) -> u64
    ensures { result ≡ number_of digits.now }
{
    let mut value = 0u64;
    let mut rest = digits;
    while let Some((digit, others)) = rest.split_first() {
        value = value
            .saturating_mul(10)
            .saturating_add(u64::from(digit_value(*digit)));
        rest = others;
    }
    value
}

fn push_byte(byte: u8, number: u64, out: &mut Vec<u8>) -> Result<(), AllocError>
    ensures { OnOk result (out.new.items ≡ out.old.items ++ numbered number (byte ∷ [])) }
{
    if byte == b'%' {
        let mut buffer = itoa::Buffer::new();
        out.extend_from_slice(buffer.format(number).as_bytes())?;
    } else {
        out.push(byte)?;
    }
    Ok(())
}

fn push_numbered(text: &[u8], number: u64, out: &mut Vec<u8>) -> Result<(), AllocError>
    ensures { OnOk result (out.new.items ≡ out.old.items ++ numbered number text.now) }
{
    let mut rest = text;
    while let Some((byte, others)) = rest.split_first() {
        push_byte(*byte, number, out)?;
        rest = others;
    }
    Ok(())
}

fn push_repeated(times: u64, text: &[u8], out: &mut Vec<u8>) -> Result<(), AllocError>
    ensures { OnOk result (out.new.items ≡ out.old.items ++ repeated times text.now) }
{
    for number in 0..times {
        push_numbered(text, number, out)?;
    }
    Ok(())
}

/// How many bytes stand before the first such byte.
fn place_of(byte: u8, bytes: &[u8]) -> usize
    ensures value { result ≡ place_of byte bytes.now }
    ensures bound { result ≤ length bytes.now }
{
    let mut place = 0;
    let mut rest = bytes;
    while let Some((first, others)) = rest.split_first() {
        if *first == byte {
            return place;
        }
        place += 1;
        rest = others;
    }
    place
}

fn before(byte: u8, bytes: &[u8]) -> &[u8]
    ensures { result.now ≡ before byte bytes.now }
{
    bytes.split_at(place_of(byte, bytes)).0
}

fn behind(byte: u8, bytes: &[u8]) -> &[u8]
    ensures { result.now ≡ behind byte bytes.now }
{
    match bytes.split_at(place_of(byte, bytes)).1.split_first() {
        Some((_, others)) => others,
        None => &[],
    }
}

/// Appends the byte of two digits, and gives what follows them.
fn push_hexadecimal<'a>(digits: &'a [u8], out: &mut Vec<u8>) -> Result<&'a [u8], AllocError>
    ensures bytes { OnOk result (out.new.items ≡ out.old.items ++ (hexadecimal digits.now).stands_for) }
    ensures rest { IfOk result (λ rest. rest.now ≡ (hexadecimal digits.now).rest) }
{
    let Some((high, others)) = digits.split_first() else {
        return Ok(digits);
    };
    let Some((low, rest)) = others.split_first() else {
        return Ok(digits);
    };
    out.push(digit_value(*high) * 16 + digit_value(*low))?;
    Ok(rest)
}

/// Appends what `TIMES:TEXT}` repeats, and gives what follows it.
fn push_repetition<'a>(inside: &'a [u8], out: &mut Vec<u8>) -> Result<&'a [u8], AllocError>
    ensures bytes { OnOk result (out.new.items ≡ out.old.items ++ (repetition inside.now).stands_for) }
    ensures rest { IfOk result (λ rest. rest.now ≡ (repetition inside.now).rest) }
{
    let text = behind(b':', inside);
    push_repeated(number_of(before(b':', inside)), before(b'}', text), out)?;
    Ok(behind(b'}', text))
}

/// Appends what stands behind a backslash, and gives what follows it.
fn push_escape<'a>(bytes: &'a [u8], out: &mut Vec<u8>) -> Result<&'a [u8], AllocError>
    ensures bytes { OnOk result (out.new.items ≡ out.old.items ++ (escape bytes.now).stands_for) }
    ensures rest { IfOk result (λ rest. rest.now ≡ (escape bytes.now).rest) }
{
    let Some((letter, rest)) = bytes.split_first() else {
        return Ok(bytes);
    };
    if *letter == b'x' {
        return push_hexadecimal(rest, out);
    }
    if *letter == b'{' {
        return push_repetition(rest, out);
    }
    push_short_escape(*letter, out)?;
    Ok(rest)
}

/// Appends what the front of some bytes stands for, and gives what follows it.
fn push_front<'a>(bytes: &'a [u8], out: &mut Vec<u8>) -> Result<&'a [u8], AllocError>
    ensures bytes { OnOk result (out.new.items ≡ out.old.items ++ (front bytes.now).stands_for) }
    ensures rest { IfOk result (λ rest. rest.now ≡ (front bytes.now).rest) }
{
    let Some((byte, rest)) = bytes.split_first() else {
        return Ok(bytes);
    };
    if *byte == b'\\' {
        return push_escape(rest, out);
    }
    out.push(*byte)?;
    Ok(rest)
}

/// The bytes that a part of a case stands for. A backslash begins an escape: `\n`, `\r`, `\t`, `\\`, `\xHH` for a byte,
/// `\.` for nothing, and `\{TIMES:TEXT}` for a text so many times, with the number of each in place of `%`.
pub fn bytes_of(alloc: Global, part: &str) -> Result<Vec<u8>, AllocError>
    ensures { IfOk result (λ bytes. bytes.items ≡ bytes_of part.now) }
{
    let mut out = Vec::new(alloc);
    let mut rest = part.as_bytes();
    for _ in 0..part.len() {
        rest = push_front(rest, &mut out)?;
    }
    Ok(out)
}

/// The text that a part of a case stands for; none where its bytes are no text.
pub fn text_of(alloc: Global, part: &str) -> Result<String, AllocError>
    ensures text { IfOk result (λ text. IsUtf8 (bytes_of part.now) → string_bytes text ≡ bytes_of part.now) }
    ensures none { IfOk result (λ text. ¬ (IsUtf8 (bytes_of part.now)) → string_bytes text ≡ []) }
{
    let bytes = bytes_of(alloc, part)?;
    match std::str::from_utf8(bytes.as_slice()) {
        Ok(text) => String::from_str(alloc, text),
        Err(_) => Ok(String::new(alloc)),
    }
}
