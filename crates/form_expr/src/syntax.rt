ghost use Rattle.std.specs.Prelude.{◌≡◌};

use field_text::{Boxed, Items, Text};
use form_def::{Func, Op};
use std::alloc::{AllocError, AllocFailed};

/// An expression as it is written, its paths and tables not yet looked up.
#[derive(Debug, Drop)]
pub enum Syntax {
    Number(i64),
    Words(Text),
    /// `.`
    Own,
    /// An absolute path, or one of `../` steps and names.
    Path(Text),
    /// A column of the item that a filter is asked of.
    Column(Text),
    /// `instance('table')/root/item[filter]/column`
    Item {
        table: Text,
        filter: Boxed<Syntax>,
        column: Text,
    },
    Call {
        func: Func,
        args: Items<Syntax>,
    },
    Pair {
        op: Op,
        left: Boxed<Syntax>,
        right: Boxed<Syntax>,
    },
    Negative(Boxed<Syntax>),
}

/// `instance('table')/root/item`, or with `[filter]` behind it.
#[derive(Debug, Drop)]
pub struct Itemset {
    pub table: Text,
    pub filter: Option<Syntax>,
}

/// Why a text is no expression.
#[derive(Clone, Copy, Debug, PartialEq, Eq)]
pub enum ExprFault {
    /// The place in bytes of what can't stand there; 2,000 for a text that is longer than that.
    BadExpr { at: u64 },
    NoMemory,
}

impl From<field_text::NoMemory> for ExprFault {
    ghost use Rattle.form_expr.specs.declared.syntax.ExprFault.TheVariants.{NoMemory};

    ghost from_gives = { λ _ fault. fault ≡ NoMemory };

    fn from(_: field_text::NoMemory) -> ExprFault {
        ExprFault::NoMemory
    }
}

impl From<AllocError> for ExprFault {
    ghost use Rattle.form_expr.specs.declared.syntax.ExprFault.TheVariants.{NoMemory};

    ghost from_gives = { λ _ fault. fault ≡ NoMemory };

    fn from(_: AllocError) -> ExprFault {
        ExprFault::NoMemory
    }
}

impl<T: Drop> From<AllocFailed<T>> for ExprFault {
    ghost use Rattle.form_expr.specs.declared.syntax.ExprFault.TheVariants.{NoMemory};

    ghost from_gives = { λ _ fault. fault ≡ NoMemory };

    fn from(_: AllocFailed<T>) -> ExprFault {
        ExprFault::NoMemory
    }
}
