use field_text::{Items, Text};
use form_def::*;
use std::alloc::Global;
use std::test::Fail;

fn text(alloc: Global, text: &str) -> Result<Text, Fail> {
    Ok(Text::from_bytes(alloc, text.as_bytes())?)
}

fn field(alloc: Global, path: &str) -> Result<Field, Fail> {
    Ok(Field {
        path: text(alloc, path)?,
        kind: Kind::Plain,
        initial: text(alloc, "")?,
        relevant: None,
        constraint: None,
        required: None,
        readonly: None,
        calculate: None,
        saveto: None,
        choices: Choices::Nothing,
    })
}

fn parts(
    alloc: Global,
    root: &str,
    fields: Items<Field>,
    order: &[u64],
) -> Result<FormParts, Fail> {
    Ok(FormParts {
        id: text(alloc, "tree")?,
        version: text(alloc, "3")?,
        root: text(alloc, root)?,
        fields,
        inner: Items::new(alloc),
        outer: Items::new(alloc),
        entity: None,
        auto_send: None,
        order: Items::from_slice(alloc, order)?,
    })
}

fn fields(alloc: Global, paths: &[&str]) -> Result<Items<Field>, Fail> {
    let mut fields = Items::new(alloc);
    for path in paths {
        fields.push(field(alloc, path)?)?;
    }
    Ok(fields)
}

fn form_of(alloc: Global, parts: FormParts) -> Result<FormDef, Fail> {
    Ok(FormDef::new(alloc, parts)?)
}

fn fault_of(alloc: Global, parts: FormParts) -> Option<FormFault> {
    FormDef::new(alloc, parts).err()
}

#[test]
fn a_form_is_made(rt: HostRuntime) -> Result<(), Fail> {
    let alloc = rt.alloc();
    let fields = fields(alloc, &["/data/plot", "/data/plot/name"])?;
    let form = form_of(alloc, parts(alloc, "data", fields, &[0, 1])?)?;
    assert_eq!(rt; form.root.as_str(), "data");
    assert_eq!(rt; form.parents.as_slice(), [None, Some(0)].as_slice());
    Ok(())
}

// The root, two paths, the order of two fields, and what is refused.
static REFUSED: [(&str, [&str; 2], [u64; 2], FormFault); 4] = [
    (
        "x:data",
        ["/x:data/a", "/x:data/b"],
        [0, 1],
        FormFault::BadRoot,
    ),
    ("data", ["/data/a", "/date/b"], [0, 1], FormFault::BadPath),
    ("data", ["/data/a", "/data/a"], [0, 1], FormFault::SamePath),
    ("data", ["/data/a", "/data/b"], [0, 0], FormFault::BadOrder),
];

#[test]
fn parts_that_are_no_form_are_refused(rt: HostRuntime) -> Result<(), Fail> {
    let alloc = rt.alloc();
    for (root, paths, order, fault) in &REFUSED {
        let fields = fields(alloc, paths)?;
        let made = fault_of(alloc, parts(alloc, root, fields, order)?);
        assert_eq!(rt; made, Some(*fault));
    }
    Ok(())
}

/// A field that reads the field of the number.
fn reader(alloc: Global, number: u64) -> Result<Field, Fail> {
    let mut reader = field(alloc, "/data/a/b")?;
    reader.calculate = Some(Expr::FieldAt(number));
    Ok(reader)
}

#[test]
fn a_field_depends_on_what_it_reads(rt: HostRuntime) -> Result<(), Fail> {
    let alloc = rt.alloc();
    let numbers = dependencies(alloc, &[], 0, &reader(alloc, 1)?)?;
    assert_eq!(rt; numbers.as_slice(), [1].as_slice());
    Ok(())
}

#[test]
fn fields_outside_the_form_are_told(rt: HostRuntime) -> Result<(), Fail> {
    let alloc = rt.alloc();
    let fields = [reader(alloc, 1)?];
    assert!(rt; !are_within(alloc, &fields)?);
    Ok(())
}

#[test]
fn marks_and_paths_are_read(rt: HostRuntime) {
    assert!(rt; is_marked(&[false, true], 1));
    assert!(rt; parent_path(b"/data/a/b") == b"/data/a".as_slice());
}
