ghost use Rattle.std.specs.Prelude.{◌≡◌, ℕ, ◌<◌, ◌^◌, IfOk, IfSome};
ghost use Rattle.std.specs.Prelude.{Some};
ghost use Rattle.std.specs.Fmt.{decimal};

use crate::{NoMemory, Text};
use itoa::Buffer;
use std::alloc::Global;

/// The digits of a number, with no leading zero.
pub fn decimal_text(alloc: Global, value: u64) -> Result<Text, NoMemory>
    ensures { IfOk result (λ text. text ≡ decimal value) }
{
    let mut buffer = Buffer::new();
    Ok(Text::from_string(String::from_str(alloc, buffer.format(value))?))
}

// A number that std reads from these bytes: signs and leading zeros are let through.
fn parsed(bytes: &[u8]) -> Option<u64>
    ensures { (value : ℕ) → value < 2 ^ 64 → bytes.now ≡ decimal value → result ≡ Some value }
{
    match std::str::from_utf8(bytes) {
        Ok(text) => text.parse::<u64>().ok(),
        Err(_) => None,
    }
}

/// The number whose decimal digits these bytes are; none where they are no such digits.
pub fn read_decimal(bytes: &[u8]) -> Option<u64>
    ensures found { IfSome result (λ value. bytes.now ≡ decimal value) }
    ensures none { (value : ℕ) → value < 2 ^ 64 → bytes.now ≡ decimal value → result ≡ Some value }
{
    match parsed(bytes) {
        Some(value) => {
            let mut buffer = Buffer::new();
            if buffer.format(value).as_bytes() == bytes {
                Some(value)
            } else {
                None
            }
        }
        None => None,
    }
}
