use field_text::{Items, Text};
use form_def::{Choices, Expr, Field, Func, Kind, are_within};
use form_order::*;
use std::alloc::Global;
use std::test::Fail;

/// What an expression reads.
#[derive(Clone, Copy, Debug)]
enum Read {
    Own,
    At(u64),
}

use Read::{At, Own};

/// A path, and what the field's relevance and its calculation read.
type Sketch = (&'static str, &'static [Read], &'static [Read]);

/// A call of `concat` with all that is to be read.
fn expr(alloc: Global, reads: &[Read]) -> Result<Option<Expr>, Fail> {
    if reads.is_empty() {
        return Ok(None);
    }
    let mut args = Items::new(alloc);
    for read in reads {
        args.push(match read {
            Own => Expr::Own,
            At(number) => Expr::FieldAt(*number),
        })?;
    }
    let func = Func::Concat;
    Ok(Some(Expr::Call { func, args }))
}

fn field(alloc: Global, sketch: &Sketch) -> Result<Field, Fail> {
    let (path, relevant, calculate) = sketch;
    Ok(Field {
        path: Text::from_bytes(alloc, path.as_bytes())?,
        kind: Kind::Plain,
        initial: Text::from_bytes(alloc, b"")?,
        relevant: expr(alloc, relevant)?,
        constraint: Some(Expr::Own),
        required: None,
        readonly: None,
        calculate: expr(alloc, calculate)?,
        saveto: None,
        choices: Choices::Nothing,
    })
}

fn fields(alloc: Global, sketches: &[Sketch]) -> Result<Items<Field>, Fail> {
    let mut fields = Items::new(alloc);
    for sketch in sketches {
        fields.push(field(alloc, sketch)?)?;
    }
    Ok(fields)
}

// Fields that have one order, and this.
static ORDERED: [(&[Sketch], &[u64]); 9] = [
    (&[], &[]),
    (&[("/d/a", &[], &[])], &[0]),
    // A field behind the one that its relevance, and one that its calculation reads.
    (&[("/d/a", &[At(1)], &[]), ("/d/b", &[], &[])], &[1, 0]),
    (&[("/d/a", &[], &[At(1)]), ("/d/b", &[], &[])], &[1, 0]),
    // A group before its fields, also where it stands behind them.
    (
        &[
            ("/d/g/h/a", &[], &[]),
            ("/d/g/h", &[], &[]),
            ("/d/g", &[], &[]),
        ],
        &[2, 1, 0],
    ),
    (&[("/d/g", &[], &[]), ("/d/g/a", &[], &[])], &[0, 1]),
    // Chains.
    (
        &[
            ("/d/a", &[At(1)], &[]),
            ("/d/b", &[], &[At(2)]),
            ("/d/c", &[At(3)], &[]),
            ("/d/e", &[], &[]),
        ],
        &[3, 2, 1, 0],
    ),
    (
        &[
            ("/d/a", &[], &[At(2)]),
            ("/d/b", &[At(0), At(2)], &[At(0)]),
            ("/d/c", &[At(3)], &[At(3)]),
            ("/d/e", &[], &[]),
        ],
        &[3, 2, 0, 1],
    ),
    // A field behind what its group depends on.
    (
        &[
            ("/d/g/a", &[], &[]),
            ("/d/g", &[At(2)], &[]),
            ("/d/b", &[], &[]),
        ],
        &[2, 1, 0],
    ),
];

#[test]
fn each_field_comes_behind_its_dependencies(rt: HostRuntime) -> Result<(), Fail> {
    let alloc = rt.alloc();
    for (sketches, order) in &ORDERED {
        let fields = fields(alloc, sketches)?;
        assert!(rt; are_within(alloc, fields.as_slice())?);
        let made = order_of(alloc, fields.as_slice())?;
        assert_eq!(rt; made.as_slice(), *order);
    }
    Ok(())
}

// Fields of which some depend on themselves, and the first of these.
static CYCLES: [(&[Sketch], u64); 11] = [
    // By `.`.
    (&[("/d/a", &[Own], &[])], 0),
    (&[("/d/a", &[], &[]), ("/d/b", &[], &[Own])], 1),
    // By their own number.
    (&[("/d/a", &[], &[]), ("/d/b", &[At(0), At(1)], &[])], 1),
    // Two fields, through relevance, calculation and both.
    (&[("/d/a", &[At(1)], &[]), ("/d/b", &[At(0)], &[])], 0),
    (&[("/d/a", &[], &[At(1)]), ("/d/b", &[], &[At(0)])], 0),
    (&[("/d/a", &[At(1)], &[]), ("/d/b", &[], &[At(0)])], 0),
    // A group whose relevance reads a field below it.
    (&[("/d/g", &[At(1)], &[]), ("/d/g/a", &[], &[])], 0),
    (
        &[
            ("/d/x", &[At(2)], &[]),
            ("/d/g/h", &[], &[]),
            ("/d/g/h/a", &[], &[]),
            ("/d/g", &[], &[At(2)]),
        ],
        1,
    ),
    // Behind a field that leads to the cycle, and isn't on it.
    (
        &[
            ("/d/a", &[At(2)], &[]),
            ("/d/b", &[], &[]),
            ("/d/c", &[At(3)], &[]),
            ("/d/e", &[At(4)], &[]),
            ("/d/f", &[At(2)], &[]),
        ],
        2,
    ),
    // Two cycles; from the first field the later one is met.
    (
        &[
            ("/d/a", &[At(3)], &[]),
            ("/d/b", &[At(2)], &[]),
            ("/d/c", &[At(1)], &[]),
            ("/d/e", &[At(4)], &[]),
            ("/d/f", &[At(3)], &[]),
        ],
        1,
    ),
    // Two cycles that share a field, met from the later one's end.
    (
        &[
            ("/d/a", &[At(4)], &[]),
            ("/d/b", &[At(3)], &[]),
            ("/d/c", &[At(3)], &[]),
            ("/d/e", &[At(2), At(1)], &[]),
            ("/d/f", &[At(3)], &[]),
        ],
        1,
    ),
];

#[test]
fn the_first_field_of_a_cycle_is_told(rt: HostRuntime) -> Result<(), Fail> {
    let alloc = rt.alloc();
    for (sketches, field) in &CYCLES {
        let fields = fields(alloc, sketches)?;
        assert!(rt; are_within(alloc, fields.as_slice())?);
        let made = order_of(alloc, fields.as_slice()).err();
        assert_eq!(rt; made, Some(OrderFault::Cycle { field: *field }));
    }
    Ok(())
}

#[test]
fn a_long_chain_has_an_order(rt: HostRuntime) -> Result<(), Fail> {
    let alloc = rt.alloc();
    let mut fields = Items::new(alloc);
    for number in 0..500 {
        let path = format!(in alloc; "/d/f{number}")?;
        let mut field = field(alloc, &("", &[], &[]))?;
        field.path = Text::from_string(path);
        if number < 499 {
            field.calculate = Some(Expr::FieldAt(number + 1));
        }
        fields.push(field)?;
    }
    assert!(rt; are_within(alloc, fields.as_slice())?);
    let order = order_of(alloc, fields.as_slice())?;
    assert_eq!(rt; order.len(), 500);
    for (place, number) in order.as_slice().iter().enumerate() {
        assert_eq!(rt; number.checked_add(place as u64), Some(499));
    }
    Ok(())
}
