use expr_values::*;
use field_text::{Items, Text};
use form_def::Cell;
use std::alloc::Global;
use std::test::Fail;

fn text(alloc: Global, text: &str) -> Result<Text, Fail> {
    Ok(Text::from_bytes(alloc, text.as_bytes())?)
}

fn cells(alloc: Global, value: &str) -> Result<Items<Cell>, Fail> {
    let mut cells = Items::new(alloc);
    cells.push(Cell {
        column: text(alloc, "name")?,
        value: text(alloc, value)?,
    })?;
    Ok(cells)
}

#[test]
fn values_are_read_in_each_way(rt: HostRuntime) -> Result<(), Fail> {
    let alloc = rt.alloc();
    let value = Value::whole(3);
    assert!(rt; value.truth());
    assert_eq!(rt; value.number(), Some(3));
    assert_eq!(rt; value.text(alloc)?.as_str(), "3");
    assert_eq!(rt; value.copy(alloc)?.calculated_text(alloc)?.as_str(), "3");
    Ok(())
}

#[test]
fn texts_are_taken_apart(rt: HostRuntime) -> Result<(), Fail> {
    let alloc = rt.alloc();
    assert!(rt; is_whole(9, b"-12"));
    assert!(rt; is_selected(b"a b", b"b"));
    assert!(rt; split_piece(b"a b").is_some());
    let cells = cells(alloc, "oak")?;
    let column = text(alloc, "name")?;
    assert_eq!(rt;
        inner_cell(alloc, cells.as_slice(), &column)?.as_str(),
        "oak"
    );
    Ok(())
}
