ghost use Rattle.std.specs.Prelude.{◌≡◌, Some};
ghost use Rattle.form_expr.specs.Words.{function_of};
ghost use Rattle.rule_cases.specs.Words.{name_of, sign_of, kind_name};

use form_def::{Func, Kind, Op};

/// The name of a function in expressions.
#[tactic(auto, unfolding(form_expr::specs::Words::function_of))]
pub fn name_of(func: Func) -> &'static str
    ensures name { result.now ≡ name_of func }
    ensures read { function_of result.now ≡ Some func }
{
    match func {
        Func::Yes => "true",
        Func::No => "false",
        Func::Not => "not",
        Func::Selected => "selected",
        Func::CountSelected => "count-selected",
        Func::StringLength => "string-length",
        Func::Concat => "concat",
        Func::Choose => "if",
        Func::Coalesce => "coalesce",
    }
}

/// The sign or the word of an operator.
pub fn sign_of(op: Op) -> &'static str
    ensures { result.now ≡ sign_of op }
{
    match op {
        Op::Or => "or",
        Op::And => "and",
        Op::Equal => "=",
        Op::NotEqual => "!=",
        Op::Less => "<",
        Op::LessEqual => "<=",
        Op::Greater => ">",
        Op::GreaterEqual => ">=",
        Op::Add => "+",
        Op::Subtract => "-",
        Op::Multiply => "*",
        Op::Modulo => "mod",
    }
}

pub fn kind_name(kind: Kind) -> &'static str
    ensures { result.now ≡ kind_name kind }
{
    match kind {
        Kind::Words => " words",
        Kind::Whole => " whole",
        Kind::One => " one",
        Kind::Many => " many",
        Kind::Group => " group",
        Kind::Plain => " plain",
    }
}
