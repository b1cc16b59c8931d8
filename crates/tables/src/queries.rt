//! Statements of the tests' own.

use sqlite::types::ValueRef;
use sqlite::{Alter, Connection, Error, Row};
use std::alloc::Global;
use std::fmt::Write;
use std::str;
use zeb_register::RegFault;

/// All rows of each table, in the order of its key.
pub const TABLES: [&str; 6] = [
    "SELECT * FROM meta ORDER BY name",
    "SELECT * FROM databases ORDER BY id",
    "SELECT * FROM records ORDER BY db, sysno",
    "SELECT * FROM postings ORDER BY db, idx, reg, term, sysno, seq, pos",
    "SELECT * FROM blocks ORDER BY db, idx, reg, term, block",
    "SELECT * FROM dict ORDER BY db, idx, reg, term",
];

/// Bytes in hexadecimal.
fn show_bytes(bytes: &[u8], text: &mut String) -> Result<(), RegFault> {
    for byte in bytes {
        write!(text, "{byte:02x}")?;
    }
    Ok(())
}

/// A value of a row, a text as it is and other bytes in hexadecimal.
fn show_value(value: ValueRef<'_>, text: &mut String) -> Result<(), RegFault> {
    match value {
        ValueRef::Null => text.push_str("null")?,
        ValueRef::Int(number) => write!(text, "{number}")?,
        ValueRef::Real(_) => text.push_str("real")?,
        ValueRef::Text(bytes) => match str::from_utf8(bytes) {
            Ok(shown) => text.push_str(shown)?,
            Err(_) => show_bytes(bytes, text)?,
        },
        ValueRef::Blob(bytes) => show_bytes(bytes, text)?,
    }
    Ok(())
}

/// A row, its values with a bar between.
fn show_row(row: &Row, text: &mut String) -> Result<(), RegFault> {
    for place in 0..row.column_count() {
        if place > 0 {
            text.push_str("|")?;
        }
        show_value(row.get_ref(place)?, text)?;
    }
    text.push_str("\n")?;
    Ok(())
}

fn query<S: Alter>(conn: &mut Connection<S>, sql: &str) -> Result<Vec<Row>, Error> {
    conn.query_all(sql, &[])
}

/// The rows that a query finds, each on a line.
pub fn rows<S: Alter>(
    conn: &mut Connection<S>,
    sql: &str,
    text: &mut String,
) -> Result<(), RegFault> {
    for row in query(conn, sql)? {
        show_row(&row, text)?;
    }
    Ok(())
}

/// All rows that these queries find.
pub fn all_rows<S: Alter>(
    alloc: Global,
    conn: &mut Connection<S>,
    queries: &[&str],
) -> Result<String, RegFault> {
    let mut text = String::new(alloc);
    for sql in queries {
        rows(conn, sql, &mut text)?;
    }
    Ok(text)
}

/// All rows. At most one request for memory is refused in a run, so a second reading isn't.
pub fn state<S: Alter>(alloc: Global, conn: &mut Connection<S>) -> Result<String, RegFault> {
    match all_rows(alloc, conn, &TABLES) {
        Ok(text) => Ok(text),
        Err(_) => all_rows(alloc, conn, &TABLES),
    }
}

/// How many rows a statement changes.
pub fn execute<S: Alter>(
    conn: &mut Connection<S>,
    sql: &str,
    text: &mut String,
) -> Result<(), RegFault> {
    let count = conn.execute(sql, &[])?;
    write!(text, "{count}")?;
    Ok(())
}
