ghost use Rattle.std.specs.Prelude.{◌≡◌, ℤ, ◌+ℤ◌, ◌-ℤ◌, ◌*ℤ◌, neg_ℤ, int_lt, int_le, int_rem};
ghost use Rattle.std.specs.Ordering.{int_eq};
ghost use Rattle.expr_values.specs.Values.{whole, truth_of, number_of};
ghost use Rattle.expr_values.specs.Operators.{compared, computed, equal as equal_to, remainder as remainder_of};
ghost use Rattle.expr_values.specs.Operators.{negative as negative_of, paired};

use crate::value::Value;
use form_def::Op;

fn sum(a: i64, b: i64) -> Value
    ensures { result ≡ whole (a +ℤ b) }
{
    match a.checked_add(b) {
        Some(sum) => Value::whole(sum),
        None => Value::NotANumber,
    }
}

fn difference(a: i64, b: i64) -> Value
    ensures { result ≡ whole (a -ℤ b) }
{
    match a.checked_sub(b) {
        Some(difference) => Value::whole(difference),
        None => Value::NotANumber,
    }
}

fn product(a: i64, b: i64) -> Value
    ensures { result ≡ whole (a *ℤ b) }
{
    match a.checked_mul(b) {
        Some(product) => Value::whole(product),
        None => Value::NotANumber,
    }
}

fn remainder(a: i64, b: i64) -> Value
    ensures { result ≡ remainder_of a b }
{
    if b == 0 {
        Value::NotANumber
    } else {
        Value::whole(a.wrapping_rem(b))
    }
}

fn opposite(a: i64) -> Value
    ensures { result ≡ whole (neg_ℤ a) }
{
    match a.checked_neg() {
        Some(opposite) => Value::whole(opposite),
        None => Value::NotANumber,
    }
}

/// The value with the other sign.
pub fn negative(value: &Value) -> Value
    ensures { result ≡ negative_of value.now }
{
    match value.number() {
        Some(number) => opposite(number),
        None => Value::NotANumber,
    }
}

fn less(left: &Value, right: &Value) -> bool
    ensures { result ≡ compared int_lt (number_of left.now) (number_of right.now) }
{
    match (left.number(), right.number()) {
        (Some(a), Some(b)) => a < b,
        _ => false,
    }
}

fn less_equal(left: &Value, right: &Value) -> bool
    ensures { result ≡ compared int_le (number_of left.now) (number_of right.now) }
{
    match (left.number(), right.number()) {
        (Some(a), Some(b)) => a <= b,
        _ => false,
    }
}

fn equal_numbers(left: &Value, right: &Value) -> bool
    ensures { result ≡ compared int_eq (number_of left.now) (number_of right.now) }
{
    match (left.number(), right.number()) {
        (Some(a), Some(b)) => a == b,
        _ => false,
    }
}

/// Whether the values are equal: as truths where either is one, else as numbers where either is one, else as texts.
fn equal(left: &Value, right: &Value) -> bool
    ensures { result ≡ equal_to left.now right.now }
{
    match (left, right) {
        (Value::Truth(_), _) | (_, Value::Truth(_)) => left.truth() == right.truth(),
        (Value::Words(a), Value::Words(b)) => a.bytes() == b.bytes(),
        _ => equal_numbers(left, right),
    }
}

fn add(left: &Value, right: &Value) -> Value
    ensures { result ≡ computed (λ a b. whole (a +ℤ b)) (number_of left.now) (number_of right.now) }
{
    match (left.number(), right.number()) {
        (Some(a), Some(b)) => sum(a, b),
        _ => Value::NotANumber,
    }
}

fn subtract(left: &Value, right: &Value) -> Value
    ensures { result ≡ computed (λ a b. whole (a -ℤ b)) (number_of left.now) (number_of right.now) }
{
    match (left.number(), right.number()) {
        (Some(a), Some(b)) => difference(a, b),
        _ => Value::NotANumber,
    }
}

fn multiply(left: &Value, right: &Value) -> Value
    ensures { result ≡ computed (λ a b. whole (a *ℤ b)) (number_of left.now) (number_of right.now) }
{
    match (left.number(), right.number()) {
        (Some(a), Some(b)) => product(a, b),
        _ => Value::NotANumber,
    }
}

fn modulo(left: &Value, right: &Value) -> Value
    ensures { result ≡ computed remainder_of (number_of left.now) (number_of right.now) }
{
    match (left.number(), right.number()) {
        (Some(a), Some(b)) => remainder(a, b),
        _ => Value::NotANumber,
    }
}

/// What the operator gives of two values.
pub fn pair(op: Op, left: &Value, right: &Value) -> Value
    ensures { result ≡ paired op left.now right.now }
{
    match op {
        Op::Or => Value::Truth(left.truth() || right.truth()),
        Op::And => Value::Truth(left.truth() && right.truth()),
        Op::Equal => Value::Truth(equal(left, right)),
        Op::NotEqual => Value::Truth(!equal(left, right)),
        Op::Less => Value::Truth(less(left, right)),
        Op::LessEqual => Value::Truth(less_equal(left, right)),
        Op::Greater => Value::Truth(less(right, left)),
        Op::GreaterEqual => Value::Truth(less_equal(right, left)),
        Op::Add => add(left, right),
        Op::Subtract => subtract(left, right),
        Op::Multiply => multiply(left, right),
        Op::Modulo => modulo(left, right),
    }
}
