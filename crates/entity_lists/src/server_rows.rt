ghost use Rattle.std.specs.Prelude.{◌≡◌, ◌⊎◌, ◌&&◌, not, true, All, map, filter, length, codes};
ghost use Rattle.std.specs.Prelude.{Some, None, IfOk, IfErr, OnOk};
ghost use Rattle.std.specs.List.{list_all, list_any};
ghost use Rattle.std.specs.Str.{bytes_eq, is_utf8};
ghost use Rattle.csv.specs.Records.{fields_of};
ghost use Rattle.entity_lists.specs.CsvRecords.{contents};
ghost use Rattle.entity_lists.specs.ServerRows.{column_place, header_fault, is_named, is_property};
ghost use Rattle.entity_lists.specs.ServerRows.{property_names, row_fault, rows_fault, rows_of, server_row, version_in};

use crate::csv_records::{fields_in, read_records};
use crate::entities::{Prop, ServerRow};
use crate::versions::Version;
use csv::ByteRecord;
use field_text::{Items, NoMemory, Text, TextRefused, read_decimal};
use std::alloc::{AllocFailed, Global};

/// The greatest number of rows of a list.
pub const ROW_LIMIT: u64 = 4096;

/// How many properties are taken from a server's list.
const PROPERTY_LIMIT: usize = 64;

/// The greatest version that a server's list may give.
const SERVER_VERSION_LIMIT: u64 = 999_999_999_999_999;

/// Why a server's list isn't read. Rows of data are counted from 1, and the header is row 0.
#[derive(Clone, Copy, Debug, PartialEq, Eq)]
pub enum CsvRefused {
    /// No column is called `name`.
    NoName,
    /// No column is called `label`.
    NoLabel,
    /// No column is called `__version`.
    NoVersion,
    /// The version is no decimal from 1 to 999,999,999,999,999.
    BadVersion { row: u64 },
    /// The row has another number of fields than the header.
    Ragged { row: u64 },
    /// A field isn't UTF-8.
    NotUtf8 { row: u64 },
    /// There are more rows than a list holds; `count` is the number of the first one that is too many.
    TooMany { count: u64 },
    NoMemory,
}

impl From<NoMemory> for CsvRefused {
    ghost use Rattle.entity_lists.specs.declared.server_rows.CsvRefused.{CsvRefused};

    ghost from_gives = { λ _ e. e ≡ CsvRefused.NoMemory };

    fn from(_: NoMemory) -> CsvRefused {
        CsvRefused::NoMemory
    }
}

impl<T: Drop> From<AllocFailed<T>> for CsvRefused {
    ghost use Rattle.entity_lists.specs.declared.server_rows.CsvRefused.{CsvRefused};

    ghost from_gives = { λ _ e. e ≡ CsvRefused.NoMemory };

    fn from(_: AllocFailed<T>) -> CsvRefused {
        CsvRefused::NoMemory
    }
}

// A column that holds a property.
#[derive(Drop)]
struct PropColumn {
    name: Text,
    place: usize,
}

// The header of a list, and where its columns stand.
#[derive(Drop)]
struct Header<'h> {
    names: &'h [&'h [u8]],
    name: usize,
    label: usize,
    version: usize,
    props: Vec<PropColumn>,
    ghost name_column: { column_place (contents names.now) (codes "name") ≡ Some name },
    ghost label_column: { column_place (contents names.now) (codes "label") ≡ Some label },
    ghost version_column: { column_place (contents names.now) (codes "__version") ≡ Some version },
    ghost prop_names: { map (λ p. p.name) props.items ≡ property_names (contents names.now) },
    ghost prop_columns: { All (λ p. column_place (contents names.now) p.name ≡ Some p.place) props.items },
}

fn is_text(bytes: &[u8]) -> bool
    ensures { result ≡ is_utf8 bytes.now }
{
    std::str::from_utf8(bytes).is_ok()
}

fn all_text(fields: &[&[u8]]) -> bool
    ensures { result ≡ list_all is_utf8 (contents fields.now) }
{
    fields.iter().all(|field| is_text(field))
}

fn place_of(header: &[&[u8]], name: &[u8]) -> Option<usize>
    ensures { result ≡ column_place (contents header.now) name.now }
{
    header.iter().position(|column| *column == name)
}

// Whether a column of this name holds a property.
fn holds_property(name: &[u8]) -> bool
    ensures { result ≡ is_property name.now }
{
    !(name == b"name".as_slice()
        || name == b"label".as_slice()
        || name.starts_with(b"__".as_slice()))
}

// The version that these bytes write.
fn version_of(bytes: &[u8]) -> Option<Version>
    ensures { result ≡ version_in bytes.now }
{
    match read_decimal(bytes) {
        Some(value) if value <= SERVER_VERSION_LIMIT => Version::from_number(value),
        _ => None,
    }
}

fn text_of(alloc: Global, bytes: &[u8]) -> Result<Text, NoMemory>
    requires { is_utf8 bytes.now ≡ true }
    ensures { IfOk result (λ text. text ≡ bytes.now) }
{
    match Text::from_bytes(alloc, bytes) {
        Ok(text) => Ok(text),
        Err(TextRefused::NotUtf8 { .. }) => unreachable!(),
        Err(TextRefused::NoMemory) => Err(NoMemory),
    }
}

fn is_taken(columns: &[PropColumn], name: &[u8]) -> bool
    ensures { result ≡ list_any (λ p. bytes_eq p.name name.now) columns.now }
{
    columns.iter().any(|column| column.name.bytes() == name)
}

// Whether a column holds a property that none of these does.
fn is_new_property(columns: &[PropColumn], name: &[u8]) -> bool
    ensures { result ≡ (is_property name.now && not (list_any (λ p. bytes_eq p.name name.now) columns.now)) }
{
    holds_property(name) && !is_taken(columns, name)
}

// The columns of properties, of one name the first.
fn prop_columns(alloc: Global, header: &[&[u8]]) -> Result<Vec<PropColumn>, NoMemory>
    requires { list_all is_utf8 (contents header.now) ≡ true }
    ensures names { IfOk result (λ v. map (λ p. p.name) v.items ≡ property_names (contents header.now)) }
    ensures places { IfOk result (λ v. All (λ p. column_place (contents header.now) p.name ≡ Some p.place) v.items) }
{
    let mut columns: Vec<PropColumn> = Vec::new(alloc);
    for (place, name) in header.iter().enumerate() {
        if columns.len() == PROPERTY_LIMIT {
            break;
        }
        if is_new_property(columns.as_slice(), name) {
            let name = text_of(alloc, name)?;
            columns.push(PropColumn { name, place })?;
        }
    }
    Ok(columns)
}

impl<'h> Header<'h> {
    fn read(alloc: Global, names: &'h [&'h [u8]]) -> Result<Header<'h>, CsvRefused>
        ensures names { IfOk result (λ header. header.names.now ≡ names.entry.now) }
        ensures ok { OnOk result (header_fault (contents names.entry.now) ≡ None) }
        ensures err { IfErr result (λ e. (e ≡ CsvRefused.NoMemory)
            ⊎ (header_fault (contents names.entry.now) ≡ Some e)) }
    {
        if !all_text(names) {
            return Err(CsvRefused::NotUtf8 { row: 0 });
        }
        let Some(name) = place_of(names, b"name") else {
            return Err(CsvRefused::NoName);
        };
        let Some(label) = place_of(names, b"label") else {
            return Err(CsvRefused::NoLabel);
        };
        let Some(version) = place_of(names, b"__version") else {
            return Err(CsvRefused::NoVersion);
        };
        let props = prop_columns(alloc, names)?;
        Ok(Header {
            names,
            name,
            label,
            version,
            props,
        })
    }

    // The properties of a row that is as long as the header, all of it text.
    fn props(&self, alloc: Global, fields: &[&[u8]]) -> Result<Items<Prop>, NoMemory>
        requires same_length { length fields.now ≡ length self.now.names.now }
        requires text { list_all is_utf8 (contents fields.now) ≡ true }
        ensures { IfOk result (λ props. props
            ≡ (server_row (contents self.now.names.now) (contents fields.now)).props) }
    {
        let mut props = Vec::new(alloc);
        for column in &self.props {
            props.push(Prop {
                name: column.name.copy(alloc)?,
                value: text_of(alloc, fields[column.place])?,
            })?;
        }
        Ok(Items::from_vec(props))
    }

    fn row(&self, alloc: Global, fields: &[&[u8]], row: u64) -> Result<ServerRow, CsvRefused>
        ensures ok { OnOk result (row_fault (contents self.now.names.now) row (contents fields.now) ≡ None) }
        ensures row { IfOk result (λ r. r ≡ server_row (contents self.now.names.now) (contents fields.now)) }
        ensures err { IfErr result (λ e. (e ≡ CsvRefused.NoMemory)
            ⊎ (row_fault (contents self.now.names.now) row (contents fields.now) ≡ Some e)) }
    {
        if fields.len() != self.names.len() {
            return Err(CsvRefused::Ragged { row });
        }
        if !all_text(fields) {
            return Err(CsvRefused::NotUtf8 { row });
        }
        let Some(version) = version_of(fields[self.version]) else {
            return Err(CsvRefused::BadVersion { row });
        };
        Ok(ServerRow {
            id: text_of(alloc, fields[self.name])?,
            label: text_of(alloc, fields[self.label])?,
            version,
            props: self.props(alloc, fields)?,
        })
    }
}

// The rows of data that name an entity.
fn read_rows(
    alloc: Global,
    header: &Header<'_>,
    records: &[ByteRecord],
) -> Result<Items<ServerRow>, CsvRefused>
    ensures ok { OnOk result (rows_fault (contents header.now.names.now) 1 (map fields_of records.now) ≡ None) }
    ensures rows { IfOk result (λ rows. rows
        ≡ filter is_named (map (server_row (contents header.now.names.now)) (map fields_of records.now))) }
    ensures err { IfErr result (λ e. (e ≡ CsvRefused.NoMemory)
        ⊎ (rows_fault (contents header.now.names.now) 1 (map fields_of records.now) ≡ Some e)) }
{
    let mut rows = Vec::new(alloc);
    let mut number = 0;
    for record in records {
        number += 1;
        if number > ROW_LIMIT {
            return Err(CsvRefused::TooMany { count: number });
        }
        let fields = fields_in(alloc, record)?;
        let row = header.row(alloc, fields.as_slice(), number)?;
        if !row.id.bytes().is_empty() {
            rows.push(row)?;
        }
    }
    Ok(Items::from_vec(rows))
}

/// The rows of a server's entity list, a CSV text (RFC 4180; ODK Entities).
pub fn read_server(alloc: Global, bytes: &[u8]) -> Result<Items<ServerRow>, CsvRefused>
    ensures rows { IfOk result (λ rows. rows_of bytes.now ≡ Ok rows) }
    ensures refused { IfErr result (λ e. (e ≡ CsvRefused.NoMemory) ⊎ (rows_of bytes.now ≡ Err e)) }
{
    let records = read_records(alloc, bytes)?;
    let Some((header, rows)) = records.as_slice().split_first() else {
        return Err(CsvRefused::NoName);
    };
    let names = fields_in(alloc, header)?;
    let header = Header::read(alloc, names.as_slice())?;
    read_rows(alloc, &header, rows)
}
