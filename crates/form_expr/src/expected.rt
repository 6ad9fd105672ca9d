use crate::Syntax;
use field_text::Text;
use form_def::Func;

/// What comes next.
#[derive(Debug, Drop)]
pub enum Expected {
    /// An operand, or a minus sign before one.
    Operand,
    /// An operator or what ends an expression, behind this operand.
    Operator(Syntax),
    /// Behind a name in a filter: the parenthesis of a call, or what comes behind a column.
    Named(Text),
    /// The parenthesis that opens a call.
    CallOpening(Func),
    /// The parenthesis that closes a call without arguments.
    CallClosing(Func),
    /// `instance`, with which an itemset begins.
    Instance,
    /// The parenthesis behind `instance`.
    TableOpening,
    /// The quoted name of a table.
    Table,
    /// The parenthesis behind the name of the table.
    TableClosing(Text),
    /// `/root/item`
    Rows(Text),
    /// The bracket that opens a filter.
    FilterOpening(Text),
    /// `/column`, behind the filter of a table.
    Value { table: Text, filter: Syntax },
}
