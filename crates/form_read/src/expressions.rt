ghost use Rattle.std.specs.Prelude.{◌≡◌, map};
ghost use Rattle.form_read.specs.Refusals.{Gives};
ghost use Rattle.form_read.specs.Expressions.{is_table, is_declared, path_resolved, all_resolved, resolved, or_bad};
ghost use Rattle.form_read.specs.Expressions.{expr_at, optional_at};
ghost use Rattle.form_expr.specs.Reading.{expr_of, itemset_of};

use crate::paths::field_read;
use crate::{FormRefused, Scope};
use field_text::{Boxed, Items, Text};
use form_def::Expr;
use form_expr::{ExprFault, Itemset, Syntax, read_expr, read_itemset};
use form_outline::ModelPart;
use std::alloc::Global;

fn is_table(name: &Text, part: &ModelPart) -> bool
    ensures { result ≡ is_table name.now part.now }
{
    match part {
        ModelPart::Table(table) => table.id.bytes() == name.bytes(),
        ModelPart::Primary
        | ModelPart::Bind(_)
        | ModelPart::Submission(_)
        | ModelPart::SetValue(_)
        | ModelPart::Other(_) => false,
    }
}

/// Whether a secondary instance of this name is declared.
pub fn is_declared(scope: &Scope, name: &Text) -> bool
    ensures { result ≡ is_declared scope.now name.now }
{
    scope
        .model
        .as_slice()
        .iter()
        .any(|part| is_table(name, part))
}

fn path_resolved(alloc: Global, scope: &Scope, own: &Text, path: &Text) -> Result<Expr, FormRefused>
    ensures { Gives (λ x. x) result (path_resolved scope.now own.now path.now) }
{
    let slots = scope.slots.as_slice();
    match field_read(alloc, slots, own.bytes(), path.bytes())? {
        Some(number) => Ok(Expr::FieldAt(number as u64)),
        None => Err(FormRefused::UnknownPath {
            path: path.copy(alloc)?,
        }),
    }
}

/// The expression of these paths and tables, in an expression of the field of the path `own`.
#[cycle(resolving)]
pub fn resolved(
    alloc: Global,
    scope: &Scope,
    own: &Text,
    syntax: &Syntax,
) -> Result<Expr, FormRefused>
    ensures { Gives (λ x. x) result (resolved scope.now own.now syntax.now) }
{
    match syntax {
        Syntax::Number(number) => Ok(Expr::Number(*number)),
        Syntax::Words(text) => Ok(Expr::Words(text.copy(alloc)?)),
        Syntax::Own => Ok(Expr::Own),
        Syntax::Path(path) => path_resolved(alloc, scope, own, path),
        Syntax::Column(column) => Ok(Expr::Column(column.copy(alloc)?)),
        Syntax::Item {
            table,
            filter,
            column,
        } => {
            if !is_declared(scope, table) {
                return Err(FormRefused::UnknownList {
                    name: table.copy(alloc)?,
                });
            }
            let filter = resolved(alloc, scope, own, filter.get())?;
            Ok(Expr::Item {
                table: table.copy(alloc)?,
                filter: Boxed::new(alloc, filter)?,
                column: column.copy(alloc)?,
            })
        }
        Syntax::Call { func, args } => {
            let args = all_resolved(alloc, scope, own, args.as_slice())?;
            Ok(Expr::Call { func: *func, args })
        }
        Syntax::Pair { op, left, right } => {
            let left = resolved(alloc, scope, own, left.get())?;
            let right = resolved(alloc, scope, own, right.get())?;
            Ok(Expr::Pair {
                op: *op,
                left: Boxed::new(alloc, left)?,
                right: Boxed::new(alloc, right)?,
            })
        }
        Syntax::Negative(negated) => {
            let negated = resolved(alloc, scope, own, negated.get())?;
            Ok(Expr::Negative(Boxed::new(alloc, negated)?))
        }
    }
}

#[cycle(resolving)]
fn all_resolved(
    alloc: Global,
    scope: &Scope,
    own: &Text,
    syntaxes: &[Syntax],
) -> Result<Items<Expr>, FormRefused>
    ensures { Gives (λ x. x) result (all_resolved (map (resolved scope.now own.now) syntaxes.now)) }
{
    let mut exprs = Items::new(alloc);
    for syntax in syntaxes {
        exprs.push(resolved(alloc, scope, own, syntax)?)?;
    }
    Ok(exprs)
}

fn syntax_of(alloc: Global, path: &Text, text: &Text) -> Result<Syntax, FormRefused>
    ensures { Gives (λ x. x) result (or_bad path.now (expr_of text.now)) }
{
    match read_expr(alloc, text.as_str()) {
        Ok(syntax) => Ok(syntax),
        Err(ExprFault::BadExpr { at }) => Err(FormRefused::BadExpr {
            path: path.copy(alloc)?,
            at,
        }),
        Err(ExprFault::NoMemory) => Err(FormRefused::NoMemory),
    }
}

/// The itemset that a nodeset is.
pub fn itemset_of(alloc: Global, path: &Text, nodeset: &Text) -> Result<Itemset, FormRefused>
    ensures { Gives (λ x. x) result (or_bad path.now (itemset_of nodeset.now)) }
{
    match read_itemset(alloc, nodeset.as_str()) {
        Ok(itemset) => Ok(itemset),
        Err(ExprFault::BadExpr { at }) => Err(FormRefused::BadExpr {
            path: path.copy(alloc)?,
            at,
        }),
        Err(ExprFault::NoMemory) => Err(FormRefused::NoMemory),
    }
}

#[tactic(auto, unfolding(crate::specs::Expressions::expr_at))]
fn expr_at(alloc: Global, scope: &Scope, own: &Text, text: &Text) -> Result<Expr, FormRefused>
    ensures { Gives (λ x. x) result (expr_at scope.now own.now text.now) }
{
    let syntax = syntax_of(alloc, own, text)?;
    resolved(alloc, scope, own, &syntax)
}

/// The expression of an attribute in the bind of the field of this path.
pub fn optional_at(
    alloc: Global,
    scope: &Scope,
    own: &Text,
    text: &Option<Text>,
) -> Result<Option<Expr>, FormRefused>
    ensures { Gives (λ x. x) result (optional_at scope.now own.now text.now) }
{
    match text {
        Some(text) => Ok(Some(expr_at(alloc, scope, own, text)?)),
        None => Ok(None),
    }
}
