ghost use Rattle.std.specs.Prelude.{◌≡◌, ◌++◌, IfOk, ℕ, List, [], ◌==◌, pos, length, chars, string_bytes};
ghost use Rattle.std.specs.Prelude.{if◌then◌else◌};
ghost use Rattle.std.specs.List.{flat_map};
ghost use Rattle.form_def.specs.declared.expr.Func.TheVariants.{Choose, Selected};
ghost use Rattle.expr_values.specs.Values.{whole, truth_of, text_of};
ghost use Rattle.expr_values.specs.Functions.{argument, is_some_text, is_selected as selected};
ghost use Rattle.expr_values.specs.Functions.{piece_count as pieces_in, joined, called};

use crate::pieces::{is_piece, split_piece};
use crate::value::Value;
use field_text::{NoMemory, Text};
use form_def::Func;
use std::alloc::Global;

/// The most bytes that joined texts have.
const LONGEST: usize = 8_000;

fn empty(alloc: Global) -> Text
    ensures { result ≡ [] }
{
    Text::from_string(String::new(alloc))
}

fn truth_at(args: &[Value], place: usize) -> bool
    ensures { result ≡ truth_of (argument args.now place) }
{
    match args.get(place) {
        Some(value) => value.truth(),
        None => false,
    }
}

fn text_at(alloc: Global, args: &[Value], place: usize) -> Result<Text, NoMemory>
    ensures { IfOk result (λ text. text ≡ text_of (argument args.now place)) }
{
    match args.get(place) {
        Some(value) => value.text(alloc),
        None => Ok(empty(alloc)),
    }
}

fn value_at(alloc: Global, args: &[Value], place: usize) -> Result<Value, NoMemory>
    ensures { IfOk result (λ value. value ≡ argument args.now place) }
{
    match args.get(place) {
        Some(value) => value.copy(alloc),
        None => Ok(Value::Words(empty(alloc))),
    }
}

/// Whether this is one of the pieces that the text is cut into at single spaces; the empty ones don't count.
pub fn is_selected(text: &[u8], piece: &[u8]) -> bool
    ensures { result ≡ selected text.now piece.now }
{
    let mut rest = text;
    while let Some((part, behind)) = split_piece(rest) {
        if is_piece(part, piece) {
            return true;
        }
        rest = behind;
    }
    is_piece(rest, piece)
}

/// How many pieces the text is cut into at single spaces; the empty ones don't count.
fn piece_count(text: &[u8]) -> usize
    ensures { result ≡ pieces_in text.now }
{
    let mut count = 0;
    let mut rest = text;
    while let Some((part, behind)) = split_piece(rest) {
        count += usize::from(!part.is_empty());
        rest = behind;
    }
    count + usize::from(!rest.is_empty())
}

fn character_count(text: &str) -> usize
    ensures { result ≡ length (chars text.now) }
{
    text.chars().count()
}

fn counted(count: usize) -> Value
    ensures { result ≡ whole (pos count) }
{
    match i64::try_from(count) {
        Ok(count) => Value::whole(count),
        Err(_) => Value::NotANumber,
    }
}

fn concat(alloc: Global, args: &[Value]) -> Result<String, NoMemory>
    ensures { IfOk result (λ text. string_bytes text ≡ flat_map text_of args.now) }
{
    let mut text = String::new(alloc);
    for arg in args {
        text.push_str(arg.text(alloc)?.as_str())?;
    }
    Ok(text)
}

fn joined_text(alloc: Global, args: &[Value]) -> Result<Text, NoMemory>
    ensures { IfOk result (λ text. text ≡ joined (flat_map text_of args.now)) }
{
    let text = concat(alloc, args)?;
    if text.len() <= LONGEST {
        Ok(Text::from_string(text))
    } else {
        Ok(empty(alloc))
    }
}

fn coalesce(alloc: Global, args: &[Value]) -> Result<Text, NoMemory>
    ensures { IfOk result (λ text. text ≡
        (if is_some_text (text_of (argument args.now 0)) then text_of (argument args.now 0) else text_of
        (argument args.now 1))) }
{
    let first = text_at(alloc, args, 0)?;
    if first.bytes().is_empty() {
        text_at(alloc, args, 1)
    } else {
        Ok(first)
    }
}

fn choose(alloc: Global, args: &[Value]) -> Result<Value, NoMemory>
    ensures { IfOk result (λ value. value ≡ called Choose args.now) }
{
    if truth_at(args, 0) {
        value_at(alloc, args, 1)
    } else {
        value_at(alloc, args, 2)
    }
}

fn select(alloc: Global, args: &[Value]) -> Result<Value, NoMemory>
    ensures { IfOk result (λ value. value ≡ called Selected args.now) }
{
    let text = text_at(alloc, args, 0)?;
    let piece = text_at(alloc, args, 1)?;
    Ok(Value::Truth(is_selected(text.bytes(), piece.bytes())))
}

/// What a function gives of these arguments; a missing one is the empty text.
pub fn call(alloc: Global, func: Func, args: &[Value]) -> Result<Value, NoMemory>
    ensures { IfOk result (λ value. value ≡ called func args.now) }
{
    match func {
        Func::Yes => Ok(Value::Truth(true)),
        Func::No => Ok(Value::Truth(false)),
        Func::Not => Ok(Value::Truth(!truth_at(args, 0))),
        Func::Selected => select(alloc, args),
        Func::CountSelected => Ok(counted(piece_count(text_at(alloc, args, 0)?.bytes()))),
        Func::StringLength => Ok(counted(character_count(text_at(alloc, args, 0)?.as_str()))),
        Func::Concat => Ok(Value::Words(joined_text(alloc, args)?)),
        Func::Choose => choose(alloc, args),
        Func::Coalesce => Ok(Value::Words(coalesce(alloc, args)?)),
    }
}
