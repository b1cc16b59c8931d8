//! Rows, each with what it has to be answered with.

use crate::faults::Fault;
use crate::folder::Folder;
use crate::outcomes::Outcome;
use crate::texts::{bytes_of, expanded};
use std::alloc::{AllocError, Global};

/// A line below a head, without the two spaces that it begins with.
#[derive(Drop)]
pub struct Line<'a> {
    pub number: usize,
    pub text: &'a str,
}

/// The lines of a text, all with this number.
pub fn lines_of(alloc: Global, text: &str, number: usize) -> Result<Vec<Line<'_>>, AllocError> {
    let mut lines = Vec::new(alloc);
    for text in text.split_terminator('\n') {
        lines.push(Line { number, text })?;
    }
    Ok(lines)
}

/// A row `INPUT -> ANSWER`.
#[derive(Drop)]
pub struct Row {
    /// The number of its line.
    pub number: usize,
    pub input: String,
    pub wanted: Outcome,
}

impl Row {
    /// The row of a line; of one that is run by words, where this is said. One without an arrow is to be answered with nothing.
    pub fn read(folder: &Folder, line: &Line<'_>, is_words: bool) -> Result<Row, Fault> {
        let (input, answer) = line
            .text
            .split_once(" -> ")
            .unwrap_or((line.text, "nothing"));
        let input = expanded(folder, input)?;
        let answer = expanded(folder, answer)?;
        Ok(Row {
            number: line.number,
            input,
            wanted: Outcome::read(folder, &answer, is_words)?,
        })
    }
}

/// The input of a script of these rows under the profile.
pub fn script_of(folder: &Folder, rows: &[Row]) -> Result<Vec<u8>, Fault> {
    let mut script = Vec::from_slice(folder.alloc, folder.profile()?.as_bytes())?;
    script.extend_from_slice(b".\n")?;
    add_lines(folder.alloc, &mut script, rows)?;
    Ok(script)
}

/// The lines of these rows as a batch that is run behind others of a script: empty lines are in the place of all that the script has before
/// them, so that each has the number that it has there.
pub fn batch_of(folder: &Folder, before: &[Row], rows: &[Row]) -> Result<Vec<u8>, Fault> {
    let script = script_of(folder, before)?;
    let count = script.iter().filter(|byte| **byte == b'\n').count();
    let empty = "\n".repeat(folder.alloc, count)?;
    let mut batch = Vec::from_slice(folder.alloc, empty.as_bytes())?;
    add_lines(folder.alloc, &mut batch, rows)?;
    Ok(batch)
}

/// Adds the lines of these rows.
fn add_lines(alloc: Global, lines: &mut Vec<u8>, rows: &[Row]) -> Result<(), Fault> {
    for row in rows {
        lines.extend_from_slice(&bytes_of(alloc, &row.input)?)?;
        lines.push(b'\n')?;
    }
    Ok(())
}
