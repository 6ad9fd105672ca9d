use field_rows::*;
use std::test::Fail;

#[test]
fn rows_are_kept(rt: HostRuntime) -> Result<(), Fail> {
    let mut rows: Rows<u64> = Rows::make(rt.alloc());
    rows.reserve()?;
    rows.push(5);
    rows.reserve()?;
    rows.push(7);
    *rows.edit(0) = 6;
    assert_eq!(rt; *rows.at(0), 6);
    assert_eq!(rt; rows.remove(0), 6);
    assert_eq!(rt; rows.count(), 1);
    assert_eq!(rt; rows.as_slice(), [7].as_slice());
    Ok(())
}
