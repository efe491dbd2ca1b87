//! What stands in a row of a text.

use crate::number::field;
use crate::text::{next_record, open};
use csv::ByteRecord;
use std::alloc::{AllocError, Global};

/// Returns the fields of the row with this number, counted from 1, or none if the text has no such
/// row or memory is short. What isn't UTF-8 in a field is replaced.
pub fn row_fields(alloc: Global, text: &[u8], row: u64) -> Option<Vec<String>> {
    let mut reader = open(alloc, text);
    let mut record = ByteRecord::new(alloc);
    for _ in 0..row {
        match next_record(&mut reader, &mut record) {
            Ok(true) => {}
            _ => return None,
        }
    }
    fields_of(alloc, &record).ok()
}

fn fields_of(alloc: Global, record: &ByteRecord) -> Result<Vec<String>, AllocError> {
    let mut fields = Vec::new(alloc);
    for place in 0..record.len() {
        let text = String::from_utf8_lossy(alloc, field(record, place))?;
        fields.push(text)?;
    }
    Ok(fields)
}
