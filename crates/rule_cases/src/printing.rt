// What is printed of a form.
ghost use Rattle.std.specs.Prelude.{◌≡◌, ◌++◌, OnOk, string_bytes};
ghost use Rattle.std.specs.List.{flat_map};
ghost use Rattle.rule_cases.specs.Expressions.{argument_printed, expr_printed};
ghost use Rattle.rule_cases.specs.Forms.{binds_printed, choices_printed};
ghost use Rattle.rule_cases.specs.Forms.{entity_printed, field_printed, filter_printed, form_printed};
ghost use Rattle.rule_cases.specs.Forms.{head_printed, initial_printed, inner_printed};
ghost use Rattle.rule_cases.specs.Forms.{named_printed, number_printed, opening_printed, order_printed, outer_printed};
ghost use Rattle.rule_cases.specs.Forms.{saveto_printed, sending_printed, value_printed};

use crate::words::{kind_name, name_of, sign_of};
use case_lines::{Prints, RowPrinter, print_all, push_all, push_number};
use field_text::Text;
use form_def::{Choices, EntityDef, Expr, Field, FormDef, InnerTable, OuterTable};
use std::alloc::AllocError;

/// Prints the parts of forms.
pub struct Printer;

#[cycle(printing)]
fn print_expr(out: &mut String, expr: &Expr) -> Result<(), AllocError>
    ensures { OnOk result (string_bytes out.new ≡ string_bytes out.old ++ expr_printed expr.now) }
{
    match expr {
        Expr::Number(n) => push_number(out, *n),
        Expr::Words(text) => push_all(out, &["'", text.as_str(), "'"]),
        Expr::Own => out.push_str("."),
        Expr::FieldAt(number) => {
            out.push_str("#")?;
            push_number(out, *number)
        }
        Expr::Column(name) => push_all(out, &["@", name.as_str()]),
        Expr::Item {
            table,
            filter,
            column,
        } => {
            push_all(out, &[table.as_str(), "["])?;
            print_expr(out, filter.get())?;
            push_all(out, &["]/", column.as_str()])
        }
        Expr::Call { func, args } => {
            push_all(out, &[name_of(*func), "("])?;
            print_arguments(out, args.as_slice())?;
            out.push_str(")")
        }
        Expr::Pair { op, left, right } => {
            out.push_str("(")?;
            print_expr(out, left.get())?;
            push_all(out, &[" ", sign_of(*op), " "])?;
            print_expr(out, right.get())?;
            out.push_str(")")
        }
        Expr::Negative(operand) => {
            out.push_str("-")?;
            print_expr(out, operand.get())
        }
    }
}

#[cycle(printing)]
fn print_arguments(out: &mut String, args: &[Expr]) -> Result<(), AllocError>
    ensures { OnOk result (string_bytes out.new ≡ string_bytes out.old
        ++ flat_map (λ arg. argument_printed (expr_printed arg)) args.now) }
{
    for arg in args {
        print_expr(out, arg)?;
        out.push_str(";")?;
    }
    Ok(())
}

fn print_named(out: &mut String, name: &str, expr: &Option<Expr>) -> Result<(), AllocError>
    ensures { OnOk result (string_bytes out.new ≡ string_bytes out.old ++ named_printed name.now expr.now) }
{
    let Some(expr) = expr else {
        return Ok(());
    };
    push_all(out, &[" ", name, "="])?;
    print_expr(out, expr)
}

impl Prints<Text> for Printer {
    ghost printed = { value_printed };

    fn print(out: &mut String, value: &Text) -> Result<(), AllocError> {
        push_all(out, &[" [", value.as_str(), "]"])
    }
}

fn print_filter(out: &mut String, filter: &Option<Expr>) -> Result<(), AllocError>
    ensures { OnOk result (string_bytes out.new ≡ string_bytes out.old ++ filter_printed filter.now) }
{
    let Some(filter) = filter else {
        return Ok(());
    };
    out.push_str("[")?;
    print_expr(out, filter)?;
    out.push_str("]")
}

fn print_choices(out: &mut String, choices: &Choices) -> Result<(), AllocError>
    ensures { OnOk result (string_bytes out.new ≡ string_bytes out.old ++ choices_printed choices.now) }
{
    match choices {
        Choices::Nothing => Ok(()),
        Choices::Fixed(values) => {
            out.push_str(" fixed")?;
            print_all::<_, Printer>(out, values.as_slice())
        }
        Choices::Rows {
            table,
            filter,
            value,
        } => {
            push_all(out, &[" rows ", table.as_str()])?;
            print_filter(out, filter)?;
            push_all(out, &["/", value.as_str()])
        }
    }
}

fn print_initial(out: &mut String, initial: &Text) -> Result<(), AllocError>
    ensures { OnOk result (string_bytes out.new ≡ string_bytes out.old ++ initial_printed initial.now) }
{
    if initial.bytes().is_empty() {
        return Ok(());
    }
    Printer::print(out, initial)
}

fn print_saveto(out: &mut String, name: &Option<Text>) -> Result<(), AllocError>
    ensures { OnOk result (string_bytes out.new ≡ string_bytes out.old ++ saveto_printed name.now) }
{
    match name {
        Some(name) => push_all(out, &[" saveto=[", name.as_str(), "]"]),
        None => Ok(()),
    }
}

#[tactic(auto, unfolding(crate::specs::Forms::binds_printed))]
fn print_binds(out: &mut String, field: &Field) -> Result<(), AllocError>
    ensures { OnOk result (string_bytes out.new ≡ string_bytes out.old ++ binds_printed field.now) }
{
    print_named(out, "relevant", &field.relevant)?;
    print_named(out, "constraint", &field.constraint)?;
    print_named(out, "required", &field.required)?;
    print_named(out, "readonly", &field.readonly)?;
    print_named(out, "calculate", &field.calculate)?;
    print_saveto(out, &field.saveto)
}

#[tactic(auto, unfolding(crate::specs::Forms::opening_printed))]
fn print_opening(out: &mut String, field: &Field) -> Result<(), AllocError>
    ensures { OnOk result (string_bytes out.new ≡ string_bytes out.old ++ opening_printed field.now) }
{
    out.push_str(field.path.as_str())?;
    out.push_str(kind_name(field.kind))?;
    print_initial(out, &field.initial)
}

impl Prints<Field> for Printer {
    ghost printed = { field_printed };

    fn print(out: &mut String, value: &Field) -> Result<(), AllocError> {
        print_opening(out, value)?;
        print_binds(out, value)?;
        print_choices(out, &value.choices)?;
        out.push_str(";")
    }
}

impl Prints<InnerTable> for Printer {
    ghost printed = { inner_printed };

    fn print(out: &mut String, value: &InnerTable) -> Result<(), AllocError> {
        push_all(out, &["inner ", value.name.as_str()])?;
        print_all::<_, RowPrinter>(out, value.rows.as_slice())?;
        out.push_str(";")
    }
}

impl Prints<OuterTable> for Printer {
    ghost printed = { outer_printed };

    fn print(out: &mut String, value: &OuterTable) -> Result<(), AllocError> {
        push_all(
            out,
            &[
                "outer ",
                value.name.as_str(),
                "=[",
                value.list.as_str(),
                "];",
            ],
        )
    }
}

fn print_entity(out: &mut String, entity: &Option<EntityDef>) -> Result<(), AllocError>
    ensures { OnOk result (string_bytes out.new ≡ string_bytes out.old ++ entity_printed entity.now) }
{
    let Some(entity) = entity else {
        return Ok(());
    };
    push_all(out, &["entity [", entity.dataset.as_str(), "]"])?;
    out.push_str(if entity.draws_id { " draws;" } else { ";" })
}

fn print_sending(out: &mut String, sends: Option<bool>) -> Result<(), AllocError>
    ensures { OnOk result (string_bytes out.new ≡ string_bytes out.old ++ sending_printed sends) }
{
    match sends {
        Some(true) => out.push_str("send true;"),
        Some(false) => out.push_str("send false;"),
        None => Ok(()),
    }
}

/// Appends all of a form but its head.
pub fn print_form(out: &mut String, form: &FormDef) -> Result<(), AllocError>
    ensures { OnOk result (string_bytes out.new ≡ string_bytes out.old ++ form_printed form.now) }
{
    print_all::<_, Printer>(out, form.fields.as_slice())?;
    print_all::<_, Printer>(out, form.inner.as_slice())?;
    print_all::<_, Printer>(out, form.outer.as_slice())?;
    print_entity(out, &form.entity)?;
    print_sending(out, form.auto_send)
}

#[tactic(auto, unfolding(crate::specs::Forms::head_printed))]
pub fn print_head(out: &mut String, form: &FormDef) -> Result<(), AllocError>
    ensures { OnOk result (string_bytes out.new ≡ string_bytes out.old ++ head_printed form.now) }
{
    let root = form.root.as_str();
    let id = form.id.as_str();
    let version = form.version.as_str();
    push_all(
        out,
        &["root ", root, " id [", id, "] version [", version, "];"],
    )
}

impl Prints<u64> for Printer {
    ghost printed = { number_printed };

    fn print(out: &mut String, value: &u64) -> Result<(), AllocError> {
        out.push_str(" ")?;
        push_number(out, *value)
    }
}

/// Appends the numbers of fields in an order.
pub fn print_order(out: &mut String, order: &[u64]) -> Result<(), AllocError>
    ensures { OnOk result (string_bytes out.new ≡ string_bytes out.old ++ order_printed order.now) }
{
    out.push_str("order")?;
    print_all::<_, Printer>(out, order)
}
