use entity_lists::*;
use field_text::{Items, Tables, Text};
use std::alloc::Global;
use std::process::Abort;
use std::test::Fail;

// Headers of lists without rows: an empty answer is a list that is read.
static HEADERS: [(&[u8], &str); 16] = [
    (b"", "NoName"),
    (b"\n\r\n", "NoName"),
    (b"id,label,__version\n", "NoName"),
    (b"name,__version\n", "NoLabel"),
    (b"name,label\n", "NoVersion"),
    (b"label,__version\n", "NoName"),
    (b"Name,label,__version\n", "NoName"),
    (b" name,label,__version\n", "NoName"),
    (b"id\n", "NoName"),
    (b"name,label,__version\n", ""),
    (b"name,label,__version", ""),
    (b"\"name\",\"label\",\"__version\"\r\n", ""),
    (b"na\xFFme,label,__version\n", "NotUtf8 { row: 0 }"),
    (b"name,label,__version,\xE2\x82\n", "NotUtf8 { row: 0 }"),
    (b"id,\xC3,\xA4\n", "NotUtf8 { row: 0 }"),
    (b"\xFF\n", "NotUtf8 { row: 0 }"),
];

// Texts whose columns stand in several orders, some of one name.
static COLUMNS: [(&[u8], &str); 12] = [
    (b"\xEF\xBB\xBFname,label,__version\nt1,Oak,1\n", "t1|Oak|1;"),
    (
        b"\xEF\xBB\xBF\"name\",label,__version\nt1,Oak,1\n",
        "t1|Oak|1;",
    ),
    (
        b"__version,h,label,name\n7,tall,Oak,t1\n",
        "t1|Oak|7|h=tall;",
    ),
    (b"name,label,__version,\nt1,Oak,1,x\n", "t1|Oak|1|=x;"),
    (b"name,label,__version,,\nt1,Oak,1,x,y\n", "t1|Oak|1|=x;"),
    (
        b"name,label,__version,h,h,name,label\nt1,Oak,1,a,b,c,d\n",
        "t1|Oak|1|h=a;",
    ),
    (
        b"h,name,label,__version,k,h\na,t1,Oak,1,b,c\n",
        "t1|Oak|1|h=a|k=b;",
    ),
    (
        b"name,label,__version,__id,_x,__\nt1,Oak,1,a,b,c\n",
        "t1|Oak|1|_x=b;",
    ),
    (b"name,label,__version,__version\nt1,Oak,3,0\n", "t1|Oak|3;"),
    (
        b"name,label,__version,__version\nt1,Oak,0,3\n",
        "BadVersion { row: 1 }",
    ),
    (
        b"name,label,__version,\"a,\"\"b\"\"\"\nt1,Oak,1,2\n",
        "t1|Oak|1|a,\"b\"=2;",
    ),
    (
        b"name,label,__version,h\ng,G,5,1\na,A2,2,2\nb,B2,2,2\nc,C2,2,2\nd,D2,2,2\na,A9,9,9\n",
        "g|G|5|h=1;a|A2|2|h=2;b|B2|2|h=2;c|C2|2|h=2;d|D2|2|h=2;a|A9|9|h=9;",
    ),
];

// Rows behind the header `name,label,__version`.
static ROWS: [(&[u8], &str); 30] = [
    (b"t1,Oak,1\n", "t1|Oak|1;"),
    (b"t1,Oak,1\r\nt2,Elm,2", "t1|Oak|1;t2|Elm|2;"),
    (b"t1,Oak,1\r\nt2,Elm,2\r\n", "t1|Oak|1;t2|Elm|2;"),
    (b"\"t,1\",\"O \"\"a\"\" k\",1\n", "t,1|O \"a\" k|1;"),
    (b"\"t1\",\"\",\"1\"\n", "t1||1;"),
    (b"t1,\"two\nlines\",1\n", "t1|two\nlines|1;"),
    (b"t1,\"two\r\nlines\",1\r\n", "t1|two\r\nlines|1;"),
    (b"t1, Oak ,1\n", "t1| Oak |1;"),
    (b"t1,\xC3\x84,1\n", "t1|\u{C4}|1;"),
    (b"t1,Oak\n", "Ragged { row: 1 }"),
    (b"t1,Oak,1\nt2,Elm,1,more\n", "Ragged { row: 2 }"),
    (b"t1,Oak,1\nt2\n", "Ragged { row: 2 }"),
    (b"t1,\xC3,0\n", "NotUtf8 { row: 1 }"),
    (b"t1,\xC3\n", "Ragged { row: 1 }"),
    (b"\xC3,\xA4,1\n", "NotUtf8 { row: 1 }"),
    (b"t1,Oak,1\nt2,Elm,\xFF\n", "NotUtf8 { row: 2 }"),
    (b"t1,Oak,0\n", "BadVersion { row: 1 }"),
    (b"t1,Oak,\n", "BadVersion { row: 1 }"),
    (b"t1,Oak,01\n", "BadVersion { row: 1 }"),
    (b"t1,Oak, 1\n", "BadVersion { row: 1 }"),
    (b"t1,Oak,+1\n", "BadVersion { row: 1 }"),
    (b"t1,Oak,1.0\n", "BadVersion { row: 1 }"),
    (b"t1,Oak,999999999999999\n", "t1|Oak|999999999999999;"),
    (b"t1,Oak,1000000000000000\n", "BadVersion { row: 1 }"),
    (b"t1,Oak,18446744073709551617\n", "BadVersion { row: 1 }"),
    (b",Oak,1\nt2,,2\n", "t2||2;"),
    (b",Oak,x\n", "BadVersion { row: 1 }"),
    (b",Oak\n", "Ragged { row: 1 }"),
    (b"\n\nt1,Oak,1\n\nt1,Elm,2\n", "t1|Oak|1;t1|Elm|2;"),
    (b"\r\nt1,Oak,1\r\n\r\nt1,Elm,0\r\n", "BadVersion { row: 2 }"),
];

// The columns of `oak`, and one that it lacks.
static CELLS: [(&str, &str); 7] = [
    ("name", "t1"),
    ("label", "Oak"),
    ("__version", "4"),
    ("__trunkVersion", ""),
    ("__branchId", "b1"),
    ("h", "12"),
    ("online", ""),
];

fn tell(line: &mut String, row: &ServerRow) -> Result<(), Fail> {
    let id = row.id.as_str();
    let label = row.label.as_str();
    write!(line, "{id}|{label}|{}", row.version.number())?;
    for prop in row.props.as_slice() {
        write!(line, "|{}={}", prop.name.as_str(), prop.value.as_str())?;
    }
    line.push(';')?;
    Ok(())
}

// The rows of a CSV text as one line, or its refusal.
fn told(alloc: Global, bytes: &[u8]) -> Result<String, Fail> {
    let mut line = String::new(alloc);
    match read_server(alloc, bytes) {
        Ok(rows) => {
            for row in rows.as_slice() {
                tell(&mut line, row)?;
            }
        }
        Err(refused) => write!(line, "{refused:?}")?,
    }
    Ok(line)
}

fn check_text(rt: &impl Abort, alloc: Global, bytes: &[u8], want: &str) -> Result<(), Fail> {
    let line = told(alloc, bytes)?;
    assert_eq!(rt; line.as_str(), want);
    Ok(())
}

fn check_rows(rt: &impl Abort, alloc: Global, rows: &[u8], want: &str) -> Result<(), Fail> {
    let mut bytes = Vec::new(alloc);
    bytes.extend_from_slice(b"name,label,__version\n")?;
    bytes.extend_from_slice(rows)?;
    check_text(rt, alloc, bytes.as_slice(), want)
}

#[test]
fn headers_are_taken_or_refused(rt: HostRuntime) -> Result<(), Fail> {
    for (bytes, want) in &HEADERS {
        check_text(&rt, rt.alloc(), bytes, want)?;
    }
    Ok(())
}

#[test]
fn columns_are_found_by_their_names(rt: HostRuntime) -> Result<(), Fail> {
    for (bytes, want) in &COLUMNS {
        check_text(&rt, rt.alloc(), bytes, want)?;
    }
    Ok(())
}

#[test]
fn rows_are_read_or_refused(rt: HostRuntime) -> Result<(), Fail> {
    for (rows, want) in &ROWS {
        check_rows(&rt, rt.alloc(), rows, want)?;
    }
    Ok(())
}

// A CSV text of so many rows, the last ones being as given.
fn long_text(alloc: Global, rows: u64, last: &str) -> Result<String, Fail> {
    let mut text = String::from_str(alloc, "name,label,__version")?;
    for row in 0..rows {
        write!(text, "\nt{row},,1")?;
    }
    text.push_str(last)?;
    Ok(text)
}

// How many rows there are in such a text, or its refusal.
fn counted(alloc: Global, rows: u64, last: &str) -> Result<Result<usize, CsvRefused>, Fail> {
    let text = long_text(alloc, rows, last)?;
    Ok(read_server(alloc, text.as_bytes()).map(|rows| rows.len()))
}

#[test]
fn long_lists_are_read_or_refused(rt: HostRuntime) -> Result<(), Fail> {
    let cases = [
        (4096, "", Ok(4096)),
        (4095, "\n,,1", Ok(4095)),
        (4096, "\n,,1", Err(CsvRefused::TooMany { count: 4097 })),
        (4096, "\nt", Err(CsvRefused::TooMany { count: 4097 })),
        (4095, "\nt\nt,,1", Err(CsvRefused::Ragged { row: 4096 })),
    ];
    for (rows, last, want) in cases {
        let found = counted(rt.alloc(), rows, last)?;
        assert_eq!(rt; found, want);
    }
    Ok(())
}

// A CSV text of one row with so many properties, in front of its version.
fn wide_text(alloc: Global, props: u64) -> Result<String, Fail> {
    let mut text = String::from_str(alloc, "name,label")?;
    for prop in 0..props {
        write!(text, ",p{prop}")?;
    }
    text.push_str(",__version\nt,")?;
    for prop in 0..props {
        write!(text, ",{prop}")?;
    }
    text.push_str(",1")?;
    Ok(text)
}

#[test]
fn the_first_properties_are_taken(rt: HostRuntime) -> Result<(), Fail> {
    for (props, want) in [(63, "p62"), (64, "p63"), (65, "p63")] {
        let text = wide_text(rt.alloc(), props)?;
        let rows = read_server(rt.alloc(), text.as_bytes())
            .ok()
            .ok_or("refused")?;
        let row = rows.get(0).ok_or("no row")?;
        let last = row.props.as_slice().last().ok_or("no property")?;
        assert_eq!(rt; last.name.as_str(), want);
    }
    Ok(())
}

fn text(alloc: Global, words: &str) -> Result<Text, Fail> {
    Ok(Text::from_bytes(alloc, words.as_bytes())?)
}

// An entity with two properties of one name, and one with the name of a fixed column.
fn oak(alloc: Global) -> Result<EntityRow, Fail> {
    let mut props = Items::new(alloc);
    for (name, value) in [("h", "12"), ("name", "hidden"), ("h", "13")] {
        props.push(Prop {
            name: text(alloc, name)?,
            value: text(alloc, value)?,
        })?;
    }
    Ok(EntityRow {
        id: text(alloc, "t1")?,
        label: text(alloc, "Oak")?,
        version: Version::from_number(4).ok_or("none")?,
        trunk: None,
        branch: text(alloc, "b1")?,
        online: false,
        props,
    })
}

#[test]
fn entities_have_cells(rt: HostRuntime) -> Result<(), Fail> {
    let oak = oak(rt.alloc())?;
    for (column, want) in &CELLS {
        let cell = oak.cell(rt.alloc(), &text(rt.alloc(), column)?)?;
        assert_eq!(rt; cell.as_str(), *want);
    }
    Ok(())
}

// The list `trees` of one entity.
fn trees(alloc: Global) -> Result<EntityList, Fail> {
    let mut rows = Items::new(alloc);
    rows.push(oak(alloc)?)?;
    Ok(EntityList {
        name: text(alloc, "trees")?,
        url: None,
        rows: Entities::from_items(rows),
    })
}

fn put(lists: &mut EntityLists, list: EntityList) -> Result<(), Fail> {
    lists.reserve()?;
    lists.put(list);
    Ok(())
}

fn one_list(alloc: Global) -> Result<EntityLists, Fail> {
    let mut lists = EntityLists::make(alloc);
    put(&mut lists, trees(alloc)?)?;
    Ok(lists)
}

fn check_cell(
    rt: &impl Abort,
    alloc: Global,
    lists: &EntityLists,
    list: &str,
    row: u64,
    want: &str,
) -> Result<(), Fail> {
    let list = text(alloc, list)?;
    let cell = lists.cell(alloc, &list, row, &text(alloc, "label")?)?;
    assert_eq!(rt; cell.as_str(), want);
    Ok(())
}

#[test]
fn lists_are_tables(rt: HostRuntime) -> Result<(), Fail> {
    let lists = one_list(rt.alloc())?;
    check_cell(&rt, rt.alloc(), &lists, "trees", 0, "Oak")?;
    check_cell(&rt, rt.alloc(), &lists, "trees", 1, "")?;
    check_cell(&rt, rt.alloc(), &lists, "shrubs", 0, "")?;
    assert_eq!(rt; lists.rows(&text(rt.alloc(), "trees")?), 1);
    Ok(())
}

#[test]
fn entities_are_found(rt: HostRuntime) -> Result<(), Fail> {
    let list = trees(rt.alloc())?.copy(rt.alloc())?;
    assert_eq!(rt; list.rows.find(&text(rt.alloc(), "t1")?), Some(0));
    assert_eq!(rt; list.rows.find(&text(rt.alloc(), "t2")?), None);
    assert_eq!(rt; list.rows.as_slice().len(), 1);
    Ok(())
}

#[test]
fn lists_are_put_and_found(rt: HostRuntime) -> Result<(), Fail> {
    let mut lists = one_list(rt.alloc())?.copy(rt.alloc())?;
    let other = trees(rt.alloc())?.with_rows(rt.alloc(), Entities::new(rt.alloc()))?;
    put(&mut lists, other)?;
    let place = lists.find(&text(rt.alloc(), "trees")?).ok_or("none")?;
    assert!(rt; place < lists.count());
    lists.set_url(place, Some(text(rt.alloc(), "/t.csv")?));
    assert!(rt; place < lists.count());
    assert!(rt; lists.get(place).url.is_some());
    assert_eq!(rt; lists.as_slice().len(), 1);
    assert_eq!(rt; lists.rows(&text(rt.alloc(), "trees")?), 0);
    Ok(())
}

#[test]
fn versions_have_numbers(rt: HostRuntime) -> Result<(), Fail> {
    let last = Version::from_number(1_000_000_000_000_000).ok_or("none")?;
    assert!(rt; last.is_last());
    assert!(rt; !Version::first().is_last());
    assert_eq!(rt; Version::first().next().number(), 2);
    Ok(())
}
