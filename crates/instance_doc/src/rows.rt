ghost use Rattle.std.specs.Prelude.{◌≡◌, ◌++◌, ◌∷◌, [], ◌<◌, IfOk, IfSome, MatchOption, OnOk, length, option_map};
ghost use Rattle.std.specs.Prelude.{string_bytes};
ghost use Rattle.instance_doc.specs.Rows.{content, is_group, last_name, meta_path, row_at};
ghost use Rattle.instance_doc.specs.Views.{row_in, rows_in};

use field_text::{NoMemory, Text};
use form_def::{Field, Kind};
use rosa_doc::write_text;
use std::alloc::Global;

/// A field with its text, and whether it is shown.
#[derive(Clone, Copy)]
pub struct Row<'a> {
    pub field: &'a Field,
    pub text: &'a Text,
    pub shown: bool,
}

/// The fields of a form with their texts, and whether each is shown.
#[derive(Clone, Copy)]
pub struct Rows<'a> {
    pub fields: &'a [Field],
    pub texts: &'a [Text],
    pub shown: &'a [bool],
}

/// The first row, and those behind it.
pub fn split_rows<'a>(rows: &Rows<'a>) -> Option<(Row<'a>, Rows<'a>)>
    ensures rows { MatchOption result (rows_in rows.now ≡ []) (λ x. rows_in rows.now ≡ row_in x.0 ∷ rows_in x.1) }
    ensures shorter { IfSome result (λ x. length x.1.fields.now < length rows.now.fields.now) }
{
    let (field, fields) = rows.fields.split_first()?;
    let (text, texts) = rows.texts.split_first()?;
    let (is_shown, shown) = rows.shown.split_first()?;
    let row = Row {
        field,
        text,
        shown: *is_shown,
    };
    Some((
        row,
        Rows {
            fields,
            texts,
            shown,
        },
    ))
}

/// The last name of a path.
pub fn last_name(path: &str) -> &str
    ensures { result.now ≡ last_name path.now }
{
    let mut rest = path;
    while let Some((_, behind)) = rest.split_once('/') {
        rest = behind;
    }
    rest
}

/// The path of what has this path in `meta`.
pub fn meta_path(alloc: Global, root: &Text, path: &str) -> Result<String, NoMemory>
    ensures { IfOk result (λ whole. string_bytes whole ≡ meta_path root.now path.now) }
{
    let mut whole = String::from_str(alloc, "/")?;
    whole.push_str(root.as_str())?;
    whole.push_str("/meta/")?;
    whole.push_str(path)?;
    Ok(whole)
}

/// The first row of a path.
pub fn row_at<'a>(path: &[u8], rows: &Rows<'a>) -> Option<Row<'a>>
    ensures { option_map row_in result ≡ row_at path.now (rows_in rows.now) }
{
    let mut rest = *rows;
    while let Some((row, behind)) = split_rows(&rest) {
        if row.field.path.bytes() == path {
            return Some(row);
        }
        rest = behind;
    }
    None
}

pub fn is_group(kind: Kind) -> bool
    ensures { result ≡ is_group kind }
{
    match kind {
        Kind::Group => true,
        Kind::Words | Kind::Whole | Kind::One | Kind::Many | Kind::Plain => false,
    }
}

/// Appends the text of a field; a group has none.
pub fn push_content(row: &Row, out: &mut Vec<u8>) -> Result<(), NoMemory>
    ensures { OnOk result (out.new.items ≡ out.old.items ++ content (row_in row.now) []) }
{
    if is_group(row.field.kind) {
        return Ok(());
    }
    write_text(row.text, out)
}
