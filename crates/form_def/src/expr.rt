use field_text::{Boxed, Items, Text};

/// A function that an expression calls.
#[derive(Clone, Copy, Debug, PartialEq, Eq)]
pub enum Func {
    /// `true()`
    Yes,
    /// `false()`
    No,
    /// `not(a)`
    Not,
    /// `selected(a, b)`
    Selected,
    /// `count-selected(a)`
    CountSelected,
    /// `string-length(a)`
    StringLength,
    /// `concat(a, ..)`
    Concat,
    /// `if(c, a, b)`
    Choose,
    /// `coalesce(a, b)`
    Coalesce,
}

/// An operator between two expressions, the loosest first.
#[derive(Clone, Copy, Debug, PartialEq, Eq)]
pub enum Op {
    Or,
    And,
    Equal,
    NotEqual,
    Less,
    LessEqual,
    Greater,
    GreaterEqual,
    Add,
    Subtract,
    Multiply,
    Modulo,
}

/// An expression (XPath 1.0 in a profile), whose paths are the numbers of fields.
#[derive(Debug, Drop)]
pub enum Expr {
    Number(i64),
    Words(Text),
    /// `.`, the field whose expression it is.
    Own,
    /// The field of this number.
    FieldAt(u64),
    /// A column of the row that a filter is asked of.
    Column(Text),
    /// `instance('table')/root/item[filter]/column`
    Item {
        table: Text,
        filter: Boxed<Expr>,
        column: Text,
    },
    Call {
        func: Func,
        args: Items<Expr>,
    },
    Pair {
        op: Op,
        left: Boxed<Expr>,
        right: Boxed<Expr>,
    },
    Negative(Boxed<Expr>),
}
