ghost use Rattle.std.specs.Prelude.{◌≡◌, ◌↔◌, None, IfOk, IsTrue, length};
ghost use Rattle.entity_lists.specs.Entities.{entity_place};

use entity_lists::{Entities, EntityList, EntityRow, Prop, ServerRow, read_server};
use entity_merge::*;
use field_ids::Draws;
use field_text::{Items, Text};
use std::alloc::Global;
use std::process::Abort;
use std::test::Fail;

type Pairs = &'static [(&'static str, &'static str)];

// To a list that has an offline row `e` with the branch of draw 1: rows of the server that are merged, rows that then
// get another label, rows of the server that are merged behind that, the list of it, and the next draw.
type Case = (&'static str, Pairs, &'static str, &'static str, u64);

static MERGES: [Case; 15] = [
    ("", &[], "", "e E 1 - 01 false h=1;", 2),
    ("", &[], "e,S,1,9\n", "e S 1 1 02 true h=9;", 3),
    ("", &[], "e,S,3,9\n", "e S 3 3 02 true h=9;", 3),
    (
        "",
        &[("e", "E2"), ("e", "E3")],
        "e,S,2,9\n",
        "e E3 3 - 01 true h=1;",
        2,
    ),
    ("a,A,1,1\n", &[], "", "e E 1 - 01 false h=1;", 3),
    ("a,A,1,1\n", &[("a", "A2")], "", "e E 1 - 01 false h=1;", 3),
    ("e,S,1,9\n", &[], "", "", 3),
    (
        "e,S,1,9\n",
        &[("e", "E2")],
        "e,T,2,8\n",
        "e T 2 2 03 true h=8;",
        4,
    ),
    (
        "a,A,4,1\n",
        &[],
        "a,B,4,2\n",
        "e E 1 - 01 false h=1;a A 4 4 02 true h=1;",
        3,
    ),
    (
        "a,A,4,1\n",
        &[("a", "A5")],
        "a,B,5,2\n",
        "e E 1 - 01 false h=1;a B 5 5 03 true h=2;",
        4,
    ),
    (
        "a,A,4,1\n",
        &[("a", "A5"), ("a", "A6")],
        "a,B,5,2\n",
        "e E 1 - 01 false h=1;a A6 6 4 02 true h=1;",
        3,
    ),
    (
        "",
        &[],
        "n,N,1,1\nn,M,2,2\n",
        "e E 1 - 01 false h=1;n N 1 1 02 true h=1;",
        3,
    ),
    (
        "a,A,2,1\n",
        &[],
        "a,B,2,2\na,C,9,9\n",
        "e E 1 - 01 false h=1;a A 2 2 02 true h=1;",
        3,
    ),
    (
        "a,A,2,1\n",
        &[],
        "a,B,3,2\nn,N,1,1\na,C,9,9\n",
        "e E 1 - 01 false h=1;a B 3 3 03 true h=2;n N 1 1 04 true h=1;",
        5,
    ),
    (
        "y,Y,1,1\n",
        &[],
        "z,Z,1,1\ny,Y2,2,1\nx,X,1,1\n",
        "e E 1 - 01 false h=1;y Y2 2 2 04 true h=1;z Z 1 1 03 true h=1;x X 1 1 05 true h=1;",
        6,
    ),
];

fn text(alloc: Global, words: &str) -> Result<Text, Fail> {
    Ok(Text::from_bytes(alloc, words.as_bytes())?)
}

fn props(alloc: Global, pairs: &[(&str, &str)]) -> Result<Items<Prop>, Fail> {
    let mut props = Items::new(alloc);
    for (name, value) in pairs {
        props.push(Prop {
            name: text(alloc, name)?,
            value: text(alloc, value)?,
        })?;
    }
    Ok(props)
}

// A row: of its branch the digits that differ among the draws of device 1 below 256.
fn tell(line: &mut String, row: &EntityRow) -> Result<(), Fail> {
    let branch = row
        .branch
        .as_str()
        .strip_prefix("00000000-0001-8000-8000-0000000000")
        .unwrap_or("other");
    let id = row.id.as_str();
    let label = row.label.as_str();
    write!(line, "{id} {label} {} ", row.version.number())?;
    match row.trunk {
        Some(trunk) => write!(line, "{} ", trunk.number())?,
        None => line.push_str("- ")?,
    }
    write!(line, "{branch} {}", row.online)?;
    for prop in row.props.as_slice() {
        write!(line, " {}={}", prop.name.as_str(), prop.value.as_str())?;
    }
    line.push(';')?;
    Ok(())
}

fn check_list(rt: &impl Abort, alloc: Global, list: &EntityList, want: &str) -> Result<(), Fail> {
    let mut line = String::new(alloc);
    for row in list.rows.as_slice() {
        tell(&mut line, row)?;
    }
    assert_eq!(rt; line.as_str(), want);
    Ok(())
}

fn empty(alloc: Global) -> Result<EntityList, Fail>
    ensures { IfOk result (λ list. length list.rows ≡ 0) }
{
    Ok(EntityList {
        name: text(alloc, "trees")?,
        url: None,
        rows: Entities::new(alloc),
    })
}

fn lacks(list: &EntityList, id: &Text) -> bool
    ensures { IsTrue result ↔ (entity_place id.now list.now.rows ≡ None) }
{
    match list.rows.find(id) {
        Some(_) => false,
        None => true,
    }
}

type Acted = Result<(EntityList, Draws), ActionRefused>;

fn created(
    rt: &impl Abort,
    alloc: Global,
    list: &EntityList,
    id: &str,
    label: &str,
    pairs: &[(&str, &str)],
    draws: Draws,
) -> Result<Acted, Fail> {
    let action = Action {
        create: true,
        list: text(alloc, "trees")?,
        id: text(alloc, id)?,
        label: text(alloc, label)?,
        props: props(alloc, pairs)?,
    };
    assert!(rt; draws.next < 1000);
    assert!(rt; lacks(list, &action.id));
    Ok(apply_action(alloc, list, &action, draws))
}

fn updated(
    rt: &impl Abort,
    alloc: Global,
    list: &EntityList,
    id: &str,
    label: &str,
    pairs: &[(&str, &str)],
) -> Result<Acted, Fail> {
    let action = Action {
        create: false,
        list: text(alloc, "trees")?,
        id: text(alloc, id)?,
        label: text(alloc, label)?,
        props: props(alloc, pairs)?,
    };
    let draws = Draws { device: 1, next: 9 };
    let acted = apply_action(alloc, list, &action, draws);
    if let Ok((_, after)) = &acted {
        assert_eq!(rt; *after, draws);
    }
    Ok(acted)
}

// Gives rows other labels, one by one.
fn relabelled(
    rt: &impl Abort,
    alloc: Global,
    list: EntityList,
    labels: &[(&str, &str)],
) -> Result<EntityList, Fail> {
    let mut list = list;
    for (id, label) in labels {
        let acted = updated(rt, alloc, &list, id, label, &[])?;
        list = acted.ok().ok_or("refused")?.0;
    }
    Ok(list)
}

// Rows of a server's list whose columns are `name`, `label`, `__version` and `h`.
fn served(alloc: Global, rows: &str) -> Result<Items<ServerRow>, Fail> {
    let mut text = String::from_str(alloc, "name,label,__version,h\n")?;
    text.push_str(rows)?;
    Ok(read_server(alloc, text.as_bytes()).ok().ok_or("refused")?)
}

fn merged(
    rt: &impl Abort,
    alloc: Global,
    list: &EntityList,
    rows: &str,
    draws: Draws,
) -> Result<(EntityList, Draws), Fail> {
    let rows = served(alloc, rows)?;
    assert!(rt; draws.next < 1000);
    assert!(rt; rows.len() < 1000);
    let merged = merge(alloc, list, rows.as_slice(), draws);
    Ok(merged.ok().ok_or("refused")?)
}

// A list of the offline row `e`, which took draw 1.
fn started(rt: &impl Abort, alloc: Global) -> Result<(EntityList, Draws), Fail> {
    let draws = Draws { device: 1, next: 1 };
    let acted = created(rt, alloc, &empty(alloc)?, "e", "E", &[("h", "1")], draws)?;
    Ok(acted.ok().ok_or("refused")?)
}

fn check_merge(rt: &impl Abort, alloc: Global, case: &Case) -> Result<(), Fail> {
    let (before, labels, now, want, next) = case;
    let (list, draws) = started(rt, alloc)?;
    let (list, draws) = merged(rt, alloc, &list, before, draws)?;
    let list = relabelled(rt, alloc, list, labels)?;
    let (list, draws) = merged(rt, alloc, &list, now, draws)?;
    assert_eq!(rt; draws.next, *next);
    check_list(rt, alloc, &list, want)
}

#[test]
fn lists_are_merged_by_their_versions(rt: HostRuntime) -> Result<(), Fail> {
    for case in &MERGES {
        check_merge(&rt, rt.alloc(), case)?;
    }
    Ok(())
}

static BEFORE: &str = "a A1 1 1 01 true h=1;b B1 2 2 02 true h=1;c C1 2 1 03 true h=1;\
    d D1 3 2 04 true h=1;e E1 1 - 05 false h=1;f F1 1 1 06 true h=1;";

static AFTER: &str = "a A2 2 2 33 true h=2;b B1 2 2 02 true h=1;c C2 2 2 34 true h=2;\
    d D1 3 2 04 true h=1;e E1 1 - 05 false h=1;g G 5 5 32 true h=1;";

// Rows in each state that a row may have, with the branches of the draws 1 to 6.
fn in_each_state(rt: &impl Abort, alloc: Global) -> Result<EntityList, Fail> {
    let draws = Draws { device: 1, next: 1 };
    let served = "a,A1,1,1\nb,B1,2,1\nc,C0,1,1\nd,D0,2,1\n";
    let (list, draws) = merged(rt, alloc, &empty(alloc)?, served, draws)?;
    let list = relabelled(rt, alloc, list, &[("c", "C1"), ("d", "D1")])?;
    let acted = created(rt, alloc, &list, "e", "E1", &[("h", "1")], draws)?;
    let (list, draws) = acted.ok().ok_or("refused")?;
    let served = "a,A1,1,1\nb,B1,2,1\nc,C0,1,1\nd,D0,2,1\nf,F1,1,1\n";
    Ok(merged(rt, alloc, &list, served, draws)?.0)
}

#[test]
fn each_state_has_its_line(rt: HostRuntime) -> Result<(), Fail> {
    let list = in_each_state(&rt, rt.alloc())?;
    check_list(&rt, rt.alloc(), &list, BEFORE)?;
    let served = "g,G,5,1\na,A2,2,2\nb,B2,2,2\nc,C2,2,2\nd,D2,2,2\na,A9,9,9\n";
    let draws = Draws {
        device: 1,
        next: 50,
    };
    let (list, draws) = merged(&rt, rt.alloc(), &list, served, draws)?;
    check_list(&rt, rt.alloc(), &list, AFTER)?;
    assert_eq!(rt; draws.device, 1);
    assert_eq!(rt; draws.next, 53);
    Ok(())
}

#[test]
fn a_creation_takes_a_draw(rt: HostRuntime) -> Result<(), Fail> {
    let draws = Draws { device: 1, next: 3 };
    let empty = empty(rt.alloc())?;
    let acted = created(&rt, rt.alloc(), &empty, "t1", "Oak", &[], draws)?;
    let (list, draws) = acted.ok().ok_or("refused")?;
    check_list(&rt, rt.alloc(), &list, "t1 Oak 1 - 03 false;")?;
    let twice = [("h", "1"), ("h", "2")];
    let acted = created(&rt, rt.alloc(), &list, "t2", "", &twice, draws)?;
    let (list, draws) = acted.ok().ok_or("refused")?;
    let want = "t1 Oak 1 - 03 false;t2  1 - 04 false h=1 h=2;";
    check_list(&rt, rt.alloc(), &list, want)?;
    assert_eq!(rt; draws.next, 5);
    assert_eq!(rt; list.name.as_str(), "trees");
    Ok(())
}

fn check_update(
    rt: &impl Abort,
    alloc: Global,
    list: EntityList,
    id: &str,
    label: &str,
    pairs: &[(&str, &str)],
    want: &str,
) -> Result<EntityList, Fail> {
    let acted = updated(rt, alloc, &list, id, label, pairs)?;
    let list = acted.ok().ok_or("refused")?.0;
    check_list(rt, alloc, &list, want)?;
    Ok(list)
}

fn id_at_end(refused: ActionRefused) -> Option<Text> {
    match refused {
        ActionRefused::AtEnd { id } => Some(id),
        ActionRefused::TooManyRecords { count: _ } => None,
        ActionRefused::NoMemory => None,
    }
}

// The row `z` has no further version.
fn check_end(rt: &impl Abort, alloc: Global, list: &EntityList) -> Result<(), Fail> {
    let acted = updated(rt, alloc, list, "z", "Z3", &[])?;
    let refused = acted.err().ok_or("done")?;
    let id = id_at_end(refused).ok_or("another refusal")?;
    assert_eq!(rt; id.as_str(), "z");
    Ok(())
}

#[test]
fn an_update_changes_one_row(rt: HostRuntime) -> Result<(), Fail> {
    let alloc = rt.alloc();
    let (list, draws) = started(&rt, alloc)?;
    let (list, _) = merged(&rt, alloc, &list, "z,Z,999999999999999,1\n", draws)?;
    let pairs = [("h", "5"), ("k", "6"), ("h", "7")];
    let want = "e E 2 - 01 false h=7 k=6;z Z 999999999999999 999999999999999 02 true h=1;";
    let list = check_update(&rt, alloc, list, "e", "", &pairs, want)?;
    let list = check_update(&rt, alloc, list, "q", "Q", &pairs, want)?;
    let want = "e E 2 - 01 false h=7 k=6;z Z2 1000000000000000 999999999999999 02 true h=1;";
    let list = check_update(&rt, alloc, list, "z", "Z2", &[], want)?;
    check_end(&rt, alloc, &list)
}
