//! How a table is read: a row has what is asked, an arrow, and what is answered, and a line that begins with `#` says nothing.

use std::alloc::{AllocError, Global};
use std::test::Fail;
use worked_samples::record;

/// What is answered, as a text. The only error is a refused request for memory.
pub type Answer = fn(Global, &str) -> Result<String, AllocError>;

/// Says what is answered to a row, where that is another answer than the wanted one.
fn compare(wrong: &mut String, row: &str, wanted: &str, found: &str) -> Result<(), AllocError> {
    let found = if found.is_empty() { "nothing" } else { found };
    if found == wanted {
        return Ok(());
    }
    writeln!(wrong, "{found} at {row}")
}

/// Asks a row, and says what is wrong with it, if anything. Where it has `%0a` a line ends, and `nothing` is an answer without a character.
fn ask(alloc: Global, row: &str, answer: Answer, wrong: &mut String) -> Result<(), AllocError>
    requires { IsAlwaysCallable answer }
{
    let row = row.replace(alloc, "%0a", "\n")?;
    let (asked, wanted) = row.split_once(" -> ").unwrap_or((&row, "an arrow"));
    compare(wrong, &row, wanted, &answer(alloc, asked)?)
}

/// Asks a row, if it isn't a remark, and once more where memory is refused. How often it was.
fn refusals(alloc: Global, row: &str, answer: Answer, wrong: &mut String) -> u64
    requires { IsAlwaysCallable answer }
{
    if row.starts_with('#') || ask(alloc, row, answer, wrong).is_ok() {
        0
    } else if ask(alloc, row, answer, wrong).is_ok() {
        1
    } else {
        2
    }
}

/// Each row has its answer. One may be refused memory once, and is then asked again: so it is whichever request is refused
/// (tests/each_allocation.py). The failure names the rows that are answered otherwise.
pub fn rows_hold(alloc: Global, rows: &str, answer: Answer) -> Result<(), Fail>
    requires { IsAlwaysCallable answer }
{
    let mut refused = 0_u64;
    let mut wrong = String::new(alloc);
    for row in rows.split_terminator('\n') {
        refused = refused.saturating_add(refusals(alloc, row, answer, &mut wrong));
    }
    if wrong.is_empty() && refused <= 1 {
        return Ok(());
    }
    write!(wrong, "{refused} refused requests")?;
    Err(Fail::new(wrong))
}

/// Puts rows behind others, with a number in place of each `N`.
fn push_rows(alloc: Global, all: &mut String, number: usize, rows: &str) -> Result<(), AllocError> {
    let number = number.to_string(alloc)?;
    all.push_str(&rows.replace(alloc, "N", &number)?)
}

/// Rows hold at each beginning of a record of this name. In them `N` stands for its length.
pub fn rows_hold_at_each_beginning(
    alloc: Global,
    name: &str,
    rows: &str,
    answer: Answer,
) -> Result<(), Fail>
    requires { IsAlwaysCallable answer }
{
    let mut all = String::new(alloc);
    for count in 0..record(name).len() {
        push_rows(alloc, &mut all, count, rows)?;
    }
    rows_hold(alloc, &all, answer)
}

/// Puts a text behind others in a list.
pub fn add(list: &mut String, between: &str, text: &str) -> Result<(), AllocError> {
    if !list.is_empty() {
        list.push_str(between)?;
    }
    list.push_str(text)
}

/// What a number is, and 0 where there is none.
pub fn number(digits: &str) -> usize {
    digits.parse().unwrap_or(0)
}

/// A text, which is many times another one where it is `5000 * a`.
pub fn repeated(alloc: Global, text: &str) -> Result<String, AllocError> {
    match text.split_once(" * ") {
        Some((count, text)) => text.repeat(alloc, number(count)),
        None => String::from_str(alloc, text),
    }
}

/// The bytes of a record by its name or of a text, or some of them: the first 63 of `63 of cafe`, and those behind the first five in `5..109 of moby`.
fn piece(part: &str) -> &[u8] {
    let Some((range, name)) = part.split_once(" of ") else {
        return record(part);
    };
    let (start, end) = range.split_once("..").unwrap_or(("", range));
    record(name).get(number(start)..number(end)).unwrap_or(&[])
}

/// The bytes of a part: those of a piece, or of a text many times.
fn push_part(alloc: Global, bytes: &mut Vec<u8>, part: &str) -> Result<(), AllocError> {
    let part = repeated(alloc, part)?;
    bytes.extend_from_slice(piece(&part))
}

/// The bytes of parts, with `+` between them.
pub fn bytes_of(alloc: Global, parts: &str) -> Result<Vec<u8>, AllocError> {
    let mut bytes = Vec::new(alloc);
    for part in parts.split('+') {
        push_part(alloc, &mut bytes, part)?;
    }
    Ok(bytes)
}

/// Bytes of a record as a text.
pub fn text_of(bytes: &[u8]) -> &str {
    str::from_utf8(bytes).unwrap_or("no text")
}
