ghost use Rattle.std.specs.Prelude.{◌≡◌, ◌≤◌, ◌<◌, ◌^◌, ℕ, true};
ghost use Rattle.expr_values.specs.Numbers.{trimmed_front as front_trimmed, trimmed as both_trimmed, is_digit};
ghost use Rattle.expr_values.specs.Numbers.{are_digits as digits_of_length, digits_value as value_of_digits};
ghost use Rattle.expr_values.specs.Numbers.{is_whole as whole_text, signed_value as signed, number_in as number};
ghost use Rattle.std.specs.Prelude.{reverse, pos, nat_le, ◌&&◌, length};
ghost use Rattle.std.specs.List.{list_all};
ghost use Rattle.field_text.specs.Xml.{is_xml_space};

/// Whether the byte is white space.
fn is_space(byte: u8) -> bool
    ensures { result ≡ is_xml_space byte }
{
    matches!(byte, b' ' | b'\t' | b'\n' | b'\r')
}

fn trimmed_front(text: &[u8]) -> &[u8]
    ensures { result.now ≡ front_trimmed text.now }
{
    let mut rest = text;
    while let [first, others @ ..] = rest {
        if !is_space(*first) {
            break;
        }
        rest = others;
    }
    rest
}

fn trimmed_back(text: &[u8]) -> &[u8]
    ensures { result.now ≡ reverse (front_trimmed (reverse text.now)) }
{
    let mut rest = text;
    while let Some((last, others)) = rest.split_last() {
        if !is_space(*last) {
            return rest;
        }
        rest = others;
    }
    rest
}

/// The text without white space at either end.
fn trimmed(text: &[u8]) -> &[u8]
    ensures { result.now ≡ both_trimmed text.now }
{
    trimmed_back(trimmed_front(text))
}

fn has_length(most: usize, digits: &[u8]) -> bool
    ensures { result ≡ (nat_le 1 (length digits.now) && nat_le (length digits.now) most) }
{
    1 <= digits.len() && digits.len() <= most
}

fn all_digits(digits: &[u8]) -> bool
    ensures { result ≡ list_all is_digit digits.now }
{
    digits.iter().all(|digit| digit.is_ascii_digit())
}

/// Whether this is one digit or more, at most so many.
fn are_digits(most: usize, digits: &[u8]) -> bool
    ensures { result ≡ digits_of_length most digits.now }
{
    has_length(most, digits) && all_digits(digits)
}

/// The number that digits spell.
fn digits_value(digits: &[u8]) -> i64
    requires { digits_of_length 15 digits.now ≡ true }
    ensures value { result ≡ pos (value_of_digits digits.now) }
    ensures small { value_of_digits digits.now < 10 ^ 15 }
{
    let mut value = 0;
    for digit in digits {
        value = value * 10 + u64::from(*digit - b'0');
    }
    value as i64
}

/// Whether this is perhaps a minus sign and then at most so many digits.
pub fn is_whole(most: usize, text: &[u8]) -> bool
    ensures { result ≡ whole_text most text.now }
{
    match text {
        [b'-', digits @ ..] => are_digits(most, digits),
        _ => are_digits(most, text),
    }
}

fn signed_value(text: &[u8]) -> i64
    requires { whole_text 15 text.now ≡ true }
    ensures { result ≡ signed text.now }
{
    match text {
        [b'-', digits @ ..] => -digits_value(digits),
        _ => digits_value(text),
    }
}

/// The number in a text with white space round it, if there is one of at most 15 digits.
pub fn number_in(text: &[u8]) -> Option<i64>
    ensures { result ≡ number text.now }
{
    let text = trimmed(text);
    if is_whole(15, text) {
        Some(signed_value(text))
    } else {
        None
    }
}
