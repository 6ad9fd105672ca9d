ghost use Rattle.std.specs.Prelude.{◌≡◌, ◌++◌, OnOk, string_bytes};
ghost use Rattle.std.specs.List.{flat_map};
ghost use Rattle.rule_cases.specs.Expressions.{argument_printed, syntax_printed, itemset_filter_printed, itemset_printed};

use crate::words::{name_of, sign_of};
use case_lines::{push_all, push_number, text_of};
use field_text::NoMemory;
use form_expr::{ExprFault, Itemset, Syntax, read_expr, read_itemset};
use std::alloc::{AllocError, Global};

#[cycle(printing)]
fn print_syntax(out: &mut String, syntax: &Syntax) -> Result<(), AllocError>
    ensures { OnOk result (string_bytes out.new ≡ string_bytes out.old ++ syntax_printed syntax.now) }
{
    match syntax {
        Syntax::Number(n) => push_number(out, *n),
        Syntax::Words(text) => push_all(out, &["'", text.as_str(), "'"]),
        Syntax::Own => out.push_str("."),
        Syntax::Path(path) => out.push_str(path.as_str()),
        Syntax::Column(name) => push_all(out, &["@", name.as_str()]),
        Syntax::Item {
            table,
            filter,
            column,
        } => {
            push_all(out, &[table.as_str(), "["])?;
            print_syntax(out, filter.get())?;
            push_all(out, &["]/", column.as_str()])
        }
        Syntax::Call { func, args } => {
            push_all(out, &[name_of(*func), "("])?;
            print_arguments(out, args.as_slice())?;
            out.push_str(")")
        }
        Syntax::Pair { op, left, right } => {
            out.push_str("(")?;
            print_syntax(out, left.get())?;
            push_all(out, &[" ", sign_of(*op), " "])?;
            print_syntax(out, right.get())?;
            out.push_str(")")
        }
        Syntax::Negative(operand) => {
            out.push_str("-")?;
            print_syntax(out, operand.get())
        }
    }
}

#[cycle(printing)]
fn print_arguments(out: &mut String, args: &[Syntax]) -> Result<(), AllocError>
    ensures { OnOk result (string_bytes out.new ≡ string_bytes out.old
        ++ flat_map (λ arg. argument_printed (syntax_printed arg)) args.now) }
{
    for arg in args {
        print_syntax(out, arg)?;
        out.push_str(";")?;
    }
    Ok(())
}

fn print_fault(out: &mut String, fault: ExprFault) -> Result<(), NoMemory> {
    match fault {
        ExprFault::BadExpr { at } => {
            out.push_str("at ")?;
            push_number(out, at)?;
            Ok(())
        }
        ExprFault::NoMemory => Err(NoMemory),
    }
}

fn syntax_of(alloc: Global, text: &str) -> Result<Syntax, ExprFault> {
    read_expr(alloc, text)
}

/// What a text is read as: the expression, or the place of its fault.
pub fn answer(alloc: Global, line: &str) -> Result<String, NoMemory> {
    let text = text_of(alloc, line)?;
    let mut out = String::new(alloc);
    match syntax_of(alloc, text.as_str()) {
        Ok(syntax) => print_syntax(&mut out, &syntax)?,
        Err(fault) => print_fault(&mut out, fault)?,
    }
    Ok(out)
}

fn print_filter(out: &mut String, filter: &Option<Syntax>) -> Result<(), AllocError>
    ensures { OnOk result (string_bytes out.new ≡ string_bytes out.old ++ itemset_filter_printed filter.now) }
{
    let Some(filter) = filter else {
        return Ok(());
    };
    out.push_str("[")?;
    print_syntax(out, filter)?;
    out.push_str("]")
}

fn print_itemset(out: &mut String, itemset: &Itemset) -> Result<(), AllocError>
    ensures { OnOk result (string_bytes out.new ≡ string_bytes out.old ++ itemset_printed itemset.now) }
{
    out.push_str(itemset.table.as_str())?;
    print_filter(out, &itemset.filter)
}

fn itemset_of(alloc: Global, text: &str) -> Result<Itemset, ExprFault> {
    read_itemset(alloc, text)
}

/// What a text is read as: the itemset, or the place of its fault.
pub fn answer_itemset(alloc: Global, line: &str) -> Result<String, NoMemory> {
    let text = text_of(alloc, line)?;
    let mut out = String::new(alloc);
    match itemset_of(alloc, text.as_str()) {
        Ok(itemset) => print_itemset(&mut out, &itemset)?,
        Err(fault) => print_fault(&mut out, fault)?,
    }
    Ok(out)
}
