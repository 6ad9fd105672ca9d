ghost use Rattle.std.specs.Prelude.{◌≡◌, IfOk, map};
ghost use Rattle.csv.specs.Records.{fields_of};
ghost use Rattle.entity_lists.specs.CsvRecords.{contents, records_of};

use csv::{ByteRecord, ReaderBuilder};
use field_text::NoMemory;
use std::alloc::Global;

// Every record of a CSV text, a header too.
pub(crate) fn read_records(alloc: Global, bytes: &[u8]) -> Result<Vec<ByteRecord>, NoMemory>
    ensures { IfOk result (λ v. map fields_of v.items ≡ records_of bytes.now) }
{
    let reader = ReaderBuilder::new()
        .has_headers(false)
        .flexible(true)
        .from_reader(alloc, bytes);
    let mut records = Vec::new(alloc);
    for record in reader.into_byte_records() {
        match record {
            Ok(record) => records.push(record)?,
            Err(_) => return Err(NoMemory),
        }
    }
    Ok(records)
}

// The fields of a record.
pub(crate) fn fields_in(alloc: Global, row: &ByteRecord) -> Result<Vec<&[u8]>, NoMemory>
    ensures { IfOk result (λ v. contents v.items ≡ fields_of row.now) }
{
    let mut fields = Vec::new(alloc);
    for place in 0..row.len() {
        if let Some(field) = row.get(place) {
            fields.push(field)?;
        }
    }
    Ok(fields)
}
