ghost use Rattle.std.specs.Prelude.{◌≡◌, ◌-◌, length, Ok, IfOk, IfErr, encode_utf8_all};
ghost use Rattle.std.specs.Str.{chars as chars_of};
ghost use Rattle.rosa_pieces.specs.Reading.{Gives};
ghost use Rattle.form_expr.specs.declared.syntax.Syntax.{Syntax};
ghost use Rattle.form_expr.specs.declared.syntax.Itemset.{Itemset};
ghost use Rattle.form_expr.specs.Grammar.{IsWholeExpr, IsWholeItemset};
ghost use Rattle.form_expr.specs.Laws.{Spells, RefusedAs};
ghost use Rattle.form_expr.specs.Machine.{expr_start as start_of_expr, itemset_start as start_of_itemset};
ghost use Rattle.form_expr.specs.Reading.{state_of, taken, read_from, read_all, expr_of, itemset_of, Reads, IsReached};

use crate::expected::Expected;
use crate::pending::Pending;
use crate::progress::Progress;
use crate::{ExprFault, Itemset, Syntax};
use field_text::{Items, NoMemory};
use form_tokens::{past_spaces, token_at};
use rosa_pieces::Unread;
use std::alloc::{AllocError, Global};

/// How many bytes the text of an expression may have.
const LONGEST_TEXT: usize = 2_000;

/// The progress behind the token at the front, and what follows the white space behind it.
#[tactic(auto, unfolding(crate::specs::Reading::taken))]
fn take_token(
    alloc: Global,
    progress: Progress,
    chars: &[char],
) -> Result<(Progress, &[char]), Unread>
    ensures { Gives (λ x. (state_of x.0, x.1.now)) result (taken (state_of progress) chars.now) }
{
    let (token, rest) = token_at(alloc, chars)?;
    let next = progress.step(alloc, token)?;
    Ok((next, past_spaces(rest)))
}

/// The progress behind all tokens, or none where something can't stand; and the characters before which they stop.
fn read_tokens(
    alloc: Global,
    start: Progress,
    chars: &[char],
) -> Result<(Option<Progress>, &[char]), NoMemory>
    ensures { IfOk result (λ x. IsReached (read_from (state_of start) chars.now) x.0 x.1.now) }
{
    let mut progress = start;
    let mut rest = chars;
    while !rest.is_empty() {
        match take_token(alloc, progress, rest) {
            Ok((next, after)) => {
                progress = next;
                rest = after;
            }
            Err(Unread::Absent) => return Ok((None, rest)),
            Err(Unread::NoMemory) => return Err(NoMemory),
        }
    }
    Ok((Some(progress), rest))
}

/// The characters of a text.
fn chars_of(alloc: Global, text: &str) -> Result<Vec<char>, AllocError>
    ensures { IfOk result (λ v. v.items ≡ chars_of text.now) }
{
    text.chars().collect(alloc)
}

/// The place in bytes of what stands at the end of so many bytes.
fn place_before(len: usize, rest: &[char]) -> u64
    ensures { result ≡ len - length (encode_utf8_all rest.now) }
{
    let mut at = len;
    for c in rest {
        at = at.saturating_sub(c.len_utf8());
    }
    at as u64
}

fn expr_start(alloc: Global) -> Progress
    ensures { state_of result ≡ start_of_expr }
{
    Progress {
        stack: Items::new(alloc),
        expected: Expected::Operand,
    }
}

fn itemset_start(alloc: Global) -> Result<Progress, NoMemory>
    ensures { IfOk result (λ start. state_of start ≡ start_of_itemset) }
{
    let mut stack = Items::new(alloc);
    stack.push(Pending::Itemset)?;
    Ok(Progress {
        stack,
        expected: Expected::Instance,
    })
}

/// The progress behind all tokens of a text.
#[tactic(auto, unfolding(crate::specs::Reading::read_all))]
fn read(alloc: Global, start: Progress, text: &str) -> Result<Progress, ExprFault>
    ensures { Reads (λ progress. state_of progress) result (read_all (state_of start) text.now) }
{
    if text.len() > LONGEST_TEXT {
        return Err(ExprFault::BadExpr {
            at: LONGEST_TEXT as u64,
        });
    }
    let chars = chars_of(alloc, text)?;
    let (progress, rest) = read_tokens(alloc, start, past_spaces(chars.as_slice()))?;
    match progress {
        Some(progress) => Ok(progress),
        None => Err(ExprFault::BadExpr {
            at: place_before(text.len(), rest),
        }),
    }
}

/// The expression, by the tokens of the text.
#[tactic(auto, unfolding(crate::specs::Reading::expr_of))]
fn expr_in(alloc: Global, text: &str) -> Result<Syntax, ExprFault>
    ensures { Reads (λ syntax. syntax) result (expr_of text.now) }
{
    let progress = read(alloc, expr_start(alloc), text)?;
    match progress.into_expr(alloc)? {
        Some(syntax) => Ok(syntax),
        None => Err(ExprFault::BadExpr {
            at: text.len() as u64,
        }),
    }
}

/// The itemset, by the tokens of the text.
#[tactic(auto, unfolding(crate::specs::Reading::itemset_of))]
fn itemset_in(alloc: Global, text: &str) -> Result<Itemset, ExprFault>
    ensures { Reads (λ itemset. itemset) result (itemset_of text.now) }
{
    let progress = read(alloc, itemset_start(alloc)?, text)?;
    match progress.into_itemset() {
        Some(itemset) => Ok(itemset),
        None => Err(ExprFault::BadExpr {
            at: text.len() as u64,
        }),
    }
}

/// The expression that a text is: XPath 1.0 in a profile, with white space between tokens. A text that is none is
/// refused at its first token with which no expression begins.
pub fn read_expr(alloc: Global, text: &str) -> Result<Syntax, ExprFault>
    ensures reads { Reads (λ syntax. syntax) result (expr_of text.now) }
    ensures found { IfOk result (λ syntax. Spells IsWholeExpr text.now syntax) }
    ensures refused { IfErr result (λ fault. RefusedAs IsWholeExpr text.now fault) }
    ensures complete { (syntax : Syntax) → Spells IsWholeExpr text.now syntax → expr_of text.now ≡ Ok syntax }
{
    expr_in(alloc, text)
}

/// The itemset that a text is: the rows of a table, and the filter that chooses among them. A text that is none is
/// refused as by `read_expr`.
pub fn read_itemset(alloc: Global, text: &str) -> Result<Itemset, ExprFault>
    ensures reads { Reads (λ itemset. itemset) result (itemset_of text.now) }
    ensures found { IfOk result (λ itemset. Spells IsWholeItemset text.now itemset) }
    ensures refused { IfErr result (λ fault. RefusedAs IsWholeItemset text.now fault) }
    ensures complete { (itemset : Itemset) → Spells IsWholeItemset text.now itemset → itemset_of text.now ≡ Ok itemset }
{
    itemset_in(alloc, text)
}
