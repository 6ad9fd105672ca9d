ghost use Rattle.std.specs.Prelude.{◌≡◌, reverse};
ghost use Rattle.std.specs.List.{list_all};
ghost use Rattle.rosa_pieces.specs.Reading.{Gives};
ghost use Rattle.form_expr.specs.Words.{is_no_slash as no_slash};
ghost use Rattle.form_expr.specs.Machine.{is_in_itemset as in_itemset, column_of_path as column_in_path};
ghost use Rattle.form_expr.specs.Machine.{when as when_wanted, column_of as column_in, at};
ghost use Rattle.form_expr.specs.Machine.{before_operand as before_of, is_open_bracket as opens_bracket};
ghost use Rattle.form_expr.specs.Machine.{table_step as table_of, value_step as value_of};
ghost use Rattle.form_expr.specs.Reading.{state_of};
ghost use Rattle.form_expr.specs.declared.pending.Pending.TheVariants.{Filter};

use crate::Syntax;
use crate::expected::Expected;
use crate::pending::Pending;
use crate::progress::{Progress, before_operand, behind};
use crate::words::is_open_bracket;
use field_text::{Boxed, Items, Text};
use form_tokens::Token;
use rosa_pieces::Unread;
use std::alloc::Global;

/// What comes next, where the token is the one that was wanted.
pub fn when(wanted: bool, stack: Items<Pending>, expected: Expected) -> Result<Progress, Unread>
    ensures { Gives state_of result (when_wanted wanted (at (reverse stack) expected)) }
{
    if wanted {
        return Ok(Progress { stack, expected });
    }
    Err(Unread::Absent)
}

/// The quoted name of a table.
pub fn table_step(stack: Items<Pending>, token: Token) -> Result<Progress, Unread>
    ensures { Gives state_of result (table_of (reverse stack) token) }
{
    match token {
        Token::Quoted(table) => Ok(Progress {
            stack,
            expected: Expected::TableClosing(table),
        }),
        _ => Err(Unread::Absent),
    }
}

pub fn filter_step(stack: Items<Pending>, table: Text, token: &Token) -> Result<Progress, Unread>
    ensures { Gives state_of result (when_wanted (opens_bracket token.now) (before_of (Filter table) (reverse stack))) }
{
    if is_open_bracket(token) {
        return Ok(before_operand(Pending::Filter { table }, stack)?);
    }
    Err(Unread::Absent)
}

/// Whether no slash is among them.
fn lacks_slash(bytes: &[u8]) -> bool
    ensures { result ≡ list_all no_slash bytes.now }
{
    let mut rest = bytes;
    while let [b, others @ ..] = rest {
        if *b == b'/' {
            return false;
        }
        rest = others;
    }
    true
}

/// The column of a path of one name.
fn column_of_path(alloc: Global, path: &Text) -> Result<Text, Unread>
    ensures { Gives (λ column. column) result (column_in_path path.now) }
{
    let Some(name) = path.as_str().strip_prefix('/') else {
        return Err(Unread::Absent);
    };
    if lacks_slash(name.as_bytes()) {
        return Ok(Text::from_string(String::from_str(alloc, name)?));
    }
    Err(Unread::Absent)
}

fn column_of(alloc: Global, token: &Token) -> Result<Text, Unread>
    ensures { Gives (λ column. column) result (column_in token.now) }
{
    match token {
        Token::Absolute(path) => column_of_path(alloc, path),
        _ => Err(Unread::Absent),
    }
}

/// Whether an itemset is read, and no filter in it.
pub fn is_in_itemset(stack: &Items<Pending>) -> bool
    ensures { result ≡ in_itemset (reverse stack.now) }
{
    match stack.as_slice() {
        [.., last] => last.is_itemset(),
        [] => false,
    }
}

/// The path of a column behind the filter of a table.
pub fn value_step(
    alloc: Global,
    stack: Items<Pending>,
    table: Text,
    filter: Syntax,
    token: &Token,
) -> Result<Progress, Unread>
    ensures { Gives state_of result (value_of (reverse stack) table filter token.now) }
{
    if is_in_itemset(&stack) {
        return Err(Unread::Absent);
    }
    let column = column_of(alloc, token)?;
    let filter = Boxed::new(alloc, filter)?;
    Ok(behind(
        alloc,
        stack,
        Syntax::Item {
            table,
            filter,
            column,
        },
    )?)
}
