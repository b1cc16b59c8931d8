//! Records, put together from their fields.

use crate::faults::Fault;
use crate::texts::bytes_of;
use std::alloc::Global;

/// The record of these fields in the exchange format.
pub fn record_of(alloc: Global, fields: &[String]) -> Result<Vec<u8>, Fault> {
    let mut directory = String::new(alloc);
    let mut area = Vec::new(alloc);
    for field in fields {
        let start = area.len();
        let tag = add_field(alloc, &mut area, field)?;
        let length = area.len().saturating_sub(start);
        write!(directory, "{tag}{length:04}{start:05}")?;
    }
    let base = directory.len().saturating_add(25);
    let length = base.saturating_add(area.len()).saturating_add(1);
    let head = format!(in alloc; "{length:05}nam a22{base:05} a 4500{directory}\x1e")?;
    let mut record = Vec::from_slice(alloc, head.as_bytes())?;
    record.extend_from_slice(&area)?;
    record.push(0x1d)?;
    Ok(record)
}

/// Adds a field, and gives its tag: a line has the tag, a space, and the text, in which `|` stands before the code of a subfield.
fn add_field<'a>(alloc: Global, area: &mut Vec<u8>, line: &'a str) -> Result<&'a str, Fault> {
    let (Some(tag), Some(text)) = (line.get(..3), line.get(4..)) else {
        return Err(Fault::Line("no field"));
    };
    let text = text.replace(alloc, '|', "%1f")?;
    area.extend_from_slice(&bytes_of(alloc, &text)?)?;
    area.push(0x1e)?;
    Ok(tag)
}
