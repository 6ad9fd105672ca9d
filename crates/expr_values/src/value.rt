ghost use Rattle.std.specs.Prelude.{◌≡◌, ◌++◌, IfOk};
ghost use Rattle.expr_values.specs.Values.{whole, truth_of, number_of, text_of, calculated_text};
ghost use Rattle.std.specs.Fmt.{signed_decimal};

use crate::digits::number_in;
use field_text::{NoMemory, Text};
use itoa::Buffer;
use std::alloc::Global;

/// The largest size of a number.
const LARGEST: u64 = 1_000_000_000_000_000;

/// What an expression gives.
#[derive(Debug, Drop)]
pub enum Value {
    Truth(bool),
    Number(i64),
    NotANumber,
    Words(Text),
}

fn text(alloc: Global, text: &str) -> Result<Text, NoMemory>
    ensures { IfOk result (λ copy. copy ≡ text.now) }
{
    Ok(Text::from_string(String::from_str(alloc, text)?))
}

fn decimal(alloc: Global, number: i64) -> Result<Text, NoMemory>
    ensures { IfOk result (λ text. text ≡ signed_decimal number) }
{
    let mut buffer = Buffer::new();
    text(alloc, buffer.format(number))
}

impl Value {
    /// The number, or not a number where its size is above 10^15.
    pub fn whole(number: i64) -> Value
        ensures { result ≡ whole number }
    {
        if number.unsigned_abs() <= LARGEST {
            Value::Number(number)
        } else {
            Value::NotANumber
        }
    }

    /// The value as a truth.
    pub fn truth(&self) -> bool
        ensures { result ≡ truth_of self.now }
    {
        match self {
            Value::Truth(truth) => *truth,
            Value::Number(number) => number.unsigned_abs() != 0,
            Value::NotANumber => false,
            Value::Words(text) => !text.bytes().is_empty(),
        }
    }

    /// The value as a number, if it is one.
    pub fn number(&self) -> Option<i64>
        ensures { result ≡ number_of self.now }
    {
        match self {
            Value::Truth(truth) => Some(i64::from(*truth)),
            Value::Number(number) => Some(*number),
            Value::NotANumber => None,
            Value::Words(text) => number_in(text.bytes()),
        }
    }

    /// The value as a text.
    pub fn text(&self, alloc: Global) -> Result<Text, NoMemory>
        ensures { IfOk result (λ text. text ≡ text_of self.now) }
    {
        match self {
            Value::Truth(true) => text(alloc, "true"),
            Value::Truth(false) => text(alloc, "false"),
            Value::Number(number) => decimal(alloc, *number),
            Value::NotANumber => text(alloc, "NaN"),
            Value::Words(text) => text.copy(alloc),
        }
    }

    pub fn copy(&self, alloc: Global) -> Result<Value, NoMemory>
        ensures { IfOk result (λ value. value ≡ self.now) }
    {
        Ok(match self {
            Value::Truth(truth) => Value::Truth(*truth),
            Value::Number(number) => Value::Number(*number),
            Value::NotANumber => Value::NotANumber,
            Value::Words(text) => Value::Words(text.copy(alloc)?),
        })
    }

    /// The text of a field that is calculated so: that of the value, and none for not a number.
    pub fn calculated_text(&self, alloc: Global) -> Result<Text, NoMemory>
        ensures { IfOk result (λ text. text ≡ calculated_text self.now) }
    {
        match self {
            Value::NotANumber => text(alloc, ""),
            other => other.text(alloc),
        }
    }
}
