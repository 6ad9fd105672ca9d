ghost use Rattle.std.specs.Prelude.{◌≡◌};
ghost use Rattle.form_expr.specs.Words.{named_operator as operator_named, operator_of as operator};
ghost use Rattle.form_expr.specs.Words.{function_of as function_named, arguments as arguments_of};
ghost use Rattle.form_expr.specs.Words.{may_take as may_be_taken, takes_more as more_taken};
ghost use Rattle.form_expr.specs.Machine.{is_open as opens, is_close as closes, is_open_bracket as opens_bracket};
ghost use Rattle.form_expr.specs.Machine.{is_instance as is_word_instance, is_rows as is_path_of_rows};
ghost use Rattle.form_expr.specs.Precedence.{level as level_of};

use field_text::Text;
use form_def::{Func, Op};
use form_tokens::Token;

fn named_operator(name: &Text) -> Option<Op>
    ensures { result ≡ operator_named name.now }
{
    if name.bytes() == b"or".as_slice() {
        return Some(Op::Or);
    }
    if name.bytes() == b"and".as_slice() {
        return Some(Op::And);
    }
    if name.bytes() == b"mod".as_slice() {
        return Some(Op::Modulo);
    }
    None
}

/// The operator that a token is, behind an operand.
pub fn operator_of(token: &Token) -> Option<Op>
    ensures { result ≡ operator token.now }
{
    match token {
        Token::Name(name) => named_operator(name),
        Token::Equal => Some(Op::Equal),
        Token::NotEqual => Some(Op::NotEqual),
        Token::Less => Some(Op::Less),
        Token::LessEqual => Some(Op::LessEqual),
        Token::Greater => Some(Op::Greater),
        Token::GreaterEqual => Some(Op::GreaterEqual),
        Token::Plus => Some(Op::Add),
        Token::Minus => Some(Op::Subtract),
        Token::Star => Some(Op::Multiply),
        Token::Digits(_)
        | Token::Quoted(_)
        | Token::Absolute(_)
        | Token::Relative(_)
        | Token::Dot
        | Token::Open
        | Token::Close
        | Token::OpenBracket
        | Token::CloseBracket
        | Token::Comma => None,
    }
}

/// How tightly an operator binds; the loosest 1.
pub fn level(op: Op) -> u8
    ensures { result ≡ level_of op }
{
    match op {
        Op::Or => 1,
        Op::And => 2,
        Op::Equal | Op::NotEqual => 3,
        Op::Less | Op::LessEqual | Op::Greater | Op::GreaterEqual => 4,
        Op::Add | Op::Subtract => 5,
        Op::Multiply | Op::Modulo => 6,
    }
}

/// The function of this name.
#[tactic(auto, unfolding(crate::specs::Words::function_of))]
pub fn function_of(name: &Text) -> Option<Func>
    ensures { result ≡ function_named name.now }
{
    if name.bytes() == b"true".as_slice() {
        return Some(Func::Yes);
    }
    if name.bytes() == b"false".as_slice() {
        return Some(Func::No);
    }
    if name.bytes() == b"not".as_slice() {
        return Some(Func::Not);
    }
    if name.bytes() == b"selected".as_slice() {
        return Some(Func::Selected);
    }
    if name.bytes() == b"count-selected".as_slice() {
        return Some(Func::CountSelected);
    }
    if name.bytes() == b"string-length".as_slice() {
        return Some(Func::StringLength);
    }
    if name.bytes() == b"concat".as_slice() {
        return Some(Func::Concat);
    }
    if name.bytes() == b"if".as_slice() {
        return Some(Func::Choose);
    }
    if name.bytes() == b"coalesce".as_slice() {
        return Some(Func::Coalesce);
    }
    None
}

/// How many arguments a function takes; as many as are given, from one on, where there is no number.
fn arguments(func: Func) -> Option<usize>
    ensures { result ≡ arguments_of func }
{
    match func {
        Func::Yes | Func::No => Some(0),
        Func::Not | Func::CountSelected | Func::StringLength => Some(1),
        Func::Selected | Func::Coalesce => Some(2),
        Func::Choose => Some(3),
        Func::Concat => None,
    }
}

/// Whether a function takes so many arguments.
pub fn may_take(func: Func, number: usize) -> bool
    ensures { result ≡ may_be_taken func number }
{
    match arguments(func) {
        Some(taken) => number == taken,
        None => number > 0,
    }
}

/// Whether a function takes more arguments than so many.
pub fn takes_more(func: Func, number: usize) -> bool
    ensures { result ≡ more_taken func number }
{
    match arguments(func) {
        Some(taken) => number < taken,
        None => true,
    }
}

pub fn is_open(token: &Token) -> bool
    ensures { result ≡ opens token.now }
{
    matches!(token, Token::Open)
}

pub fn is_close(token: &Token) -> bool
    ensures { result ≡ closes token.now }
{
    matches!(token, Token::Close)
}

pub fn is_open_bracket(token: &Token) -> bool
    ensures { result ≡ opens_bracket token.now }
{
    matches!(token, Token::OpenBracket)
}

pub fn is_instance(token: &Token) -> bool
    ensures { result ≡ is_word_instance token.now }
{
    match token {
        Token::Name(name) => name.bytes() == b"instance".as_slice(),
        _ => false,
    }
}

pub fn is_rows(token: &Token) -> bool
    ensures { result ≡ is_path_of_rows token.now }
{
    match token {
        Token::Absolute(path) => path.bytes() == b"/root/item".as_slice(),
        _ => false,
    }
}
