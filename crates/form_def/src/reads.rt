ghost use Rattle.std.specs.Prelude.{◌≡◌, ◌++◌, OnOk, IfOk};
ghost use Rattle.std.specs.List.{flat_map};
ghost use Rattle.form_def.specs.Reads.{reads, reads_of};
ghost use Rattle.form_def.specs.Fields.{reads_of_choices, reads_of_field};

use crate::expr::Expr;
use crate::field::{Choices, Field};
use field_text::NoMemory;
use std::alloc::Global;

/// Appends the numbers of the fields that an expression reads.
#[cycle(reading)]
fn push_reads(expr: &Expr, own: u64, numbers: &mut Vec<u64>) -> Result<(), NoMemory>
    ensures { OnOk result (numbers.new.items ≡ numbers.old.items ++ reads own expr.now) }
{
    match expr {
        Expr::Number(_) | Expr::Words(_) | Expr::Column(_) => Ok(()),
        Expr::Own => Ok(numbers.push(own)?),
        Expr::FieldAt(number) => Ok(numbers.push(*number)?),
        Expr::Item { filter, .. } => push_reads(filter.get(), own, numbers),
        Expr::Call { args, .. } => push_all_reads(args.as_slice(), own, numbers),
        Expr::Pair { left, right, .. } => {
            push_reads(left.get(), own, numbers)?;
            push_reads(right.get(), own, numbers)
        }
        Expr::Negative(negated) => push_reads(negated.get(), own, numbers),
    }
}

#[cycle(reading)]
fn push_all_reads(exprs: &[Expr], own: u64, numbers: &mut Vec<u64>) -> Result<(), NoMemory>
    ensures { OnOk result (numbers.new.items ≡ numbers.old.items ++ flat_map (reads own) exprs.now) }
{
    for expr in exprs {
        push_reads(expr, own, numbers)?;
    }
    Ok(())
}

pub fn push_reads_of(expr: &Option<Expr>, own: u64, numbers: &mut Vec<u64>) -> Result<(), NoMemory>
    ensures { OnOk result (numbers.new.items ≡ numbers.old.items ++ reads_of own expr.now) }
{
    match expr {
        Some(expr) => push_reads(expr, own, numbers),
        None => Ok(()),
    }
}

fn push_reads_of_choices(
    choices: &Choices,
    own: u64,
    numbers: &mut Vec<u64>,
) -> Result<(), NoMemory>
    ensures { OnOk result (numbers.new.items ≡ numbers.old.items ++ reads_of_choices own choices.now) }
{
    match choices {
        Choices::Nothing | Choices::Fixed(_) => Ok(()),
        Choices::Rows { filter, .. } => push_reads_of(filter, own, numbers),
    }
}

/// The numbers of the fields that any expression of a field reads.
pub fn reads_of_field(alloc: Global, own: u64, field: &Field) -> Result<Vec<u64>, NoMemory>
    ensures { IfOk result (λ numbers. numbers.items ≡ reads_of_field own field.now) }
{
    let mut numbers = Vec::new(alloc);
    push_reads_of(&field.relevant, own, &mut numbers)?;
    push_reads_of(&field.constraint, own, &mut numbers)?;
    push_reads_of(&field.required, own, &mut numbers)?;
    push_reads_of(&field.readonly, own, &mut numbers)?;
    push_reads_of(&field.calculate, own, &mut numbers)?;
    push_reads_of_choices(&field.choices, own, &mut numbers)?;
    Ok(numbers)
}
