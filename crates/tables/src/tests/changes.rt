//! Steps inside a transaction.

use super::words::{Change, Words};
use super::{Done, Opened};
use sqlite::{Alter, Transaction};
use std::alloc::Global;
use std::cmp::Ordering;
use worked_samples::record;
use zeb_keys::order_is_by_parts;
use zeb_register::{
    DatabaseId, KeyChanges, Layout, RegFault, Work, database_put, make_tables, meta_put,
    record_of_ident, record_put, record_take, wipe,
};

/// The bytes of a record by its name, bytes that are no text, or the word's own.
fn bytes_of(word: &str) -> &[u8] {
    if word == "BINARY" {
        return b"\0\xff";
    }
    record(word)
}

/// The other way round.
pub fn name_of(bytes: &[u8]) -> &str {
    worked_samples::name_of(bytes).unwrap_or(str::from_utf8(bytes).unwrap_or("no text"))
}

fn change_key<S: Alter, L: Layout>(
    tx: &mut Transaction<'_, S>,
    db: DatabaseId,
    change: &Change,
) -> Done {
    let (work, sysno) = (&mut Work::default(), change.sysno);
    L::key_change(tx, work, db, &change.key, sysno, &change.old, &change.new)
}

/// A record that has the word as its identifier too.
fn put_word<S: Alter, L: Layout>(
    tx: &mut Transaction<'_, S>,
    db: DatabaseId,
    change: &Change,
) -> Done {
    record_put(tx, db, change.sysno, change.key.term.as_str(), b"x")?;
    change_key::<S, L>(tx, db, change)
}

/// So many records with numbers from 1 on, each with a word of its own.
fn fill<S: Alter, L: Layout>(
    tx: &mut Transaction<'_, S>,
    db: DatabaseId,
    alloc: Global,
    count: u64,
) -> Done {
    for sysno in 1..=count {
        let left = format!(in alloc; "0:w <w{sysno:04}> {sysno} - 2.1")?;
        put_word::<S, L>(tx, db, &Words { alloc, left: &left }.change()?)?;
    }
    Ok(())
}

/// Changes of two keys, the lesser of which stands first.
fn change_run<S: Alter, L: Layout>(
    tx: &mut Transaction<'_, S>,
    db: DatabaseId,
    one: Change,
    other: Change,
) -> Done {
    order_is_by_parts();
    match one.key.cmp(&other.key) {
        Ordering::Less => {}
        _ => return Err(RegFault::Memory),
    }
    let run = [
        KeyChanges {
            key: &one.key,
            changes: &[one.of_record()],
        },
        KeyChanges {
            key: &other.key,
            changes: &[other.of_record()],
        },
    ];
    L::run_changes(tx, &mut Work::default(), db, &run)
}

/// Does a step on keys.
fn change_keys<S: Alter, L: Layout>(
    tx: &mut Transaction<'_, S>,
    db: DatabaseId,
    word: &str,
    mut words: Words<'_>,
) -> Done {
    let one = words.change()?;
    match word {
        "key_change" => change_key::<S, L>(tx, db, &one),
        "run_changes" => change_run::<S, L>(tx, db, one, words.change()?),
        _ => Err(RegFault::Memory),
    }
}

/// The number of the record with this identifier, and its bytes.
fn look_for<S: Alter>(
    tx: &mut Transaction<'_, S>,
    db: DatabaseId,
    ident: &str,
    text: &mut String,
) -> Done {
    match record_of_ident(tx, db, ident)? {
        Some(elder) => write!(text, "{} {}", elder.sysno, name_of(&elder.bytes))?,
        None => text.push_str("none")?,
    }
    Ok(())
}

/// Does a step on a database.
fn change_in<S: Alter, L: Layout>(
    tx: &mut Transaction<'_, S>,
    db: DatabaseId,
    word: &str,
    mut words: Words<'_>,
    text: &mut String,
) -> Done {
    match word {
        "fill" => fill::<S, L>(tx, db, words.alloc, words.number()?)?,
        "record_put" => record_put(tx, db, words.number()?, words.word(), bytes_of(words.left))?,
        "record_take" => record_take(tx, db, words.number()?)?,
        "record_of_ident" => look_for(tx, db, words.left, text)?,
        "database_take" => L::database_take(tx, db)?,
        _ => change_keys::<S, L>(tx, db, word, words)?,
    }
    Ok(())
}

/// Keeps a text, with `;` for the end of a line.
fn put_text<S: Alter>(tx: &mut Transaction<'_, S>, mut words: Words<'_>) -> Done {
    let name = words.word();
    meta_put(tx, name, &words.left.replace(words.alloc, ';', "\n")?)?;
    Ok(())
}

/// Does a step.
fn change<S: Alter, L: Layout>(
    tx: &mut Transaction<'_, S>,
    db: &mut Option<DatabaseId>,
    mut words: Words<'_>,
    text: &mut String,
) -> Done {
    match words.word() {
        "make_tables" => make_tables(tx)?,
        "wipe" => wipe(tx)?,
        "version" => meta_put(tx, "version", L::version())?,
        "meta_put" => put_text(tx, words)?,
        "database_put" => *db = Some(database_put(tx, words.word(), words.number()?)?),
        word => change_in::<S, L>(tx, db.ok_or(RegFault::Memory)?, word, words, text)?,
    }
    Ok(())
}

impl<S: Alter> Opened<S> {
    /// Does a step in a transaction of its own, which is then committed or given up.
    pub fn change_alone<L: Layout>(
        &mut self,
        words: Words<'_>,
        is_kept: bool,
        text: &mut String,
    ) -> Done {
        if !self.conn.is_autocommit() {
            return Err(RegFault::Store);
        }
        let mut tx = self.conn.transaction();
        change::<S, L>(&mut tx, &mut self.db, words, text)?;
        if is_kept {
            tx.commit()?;
        }
        Ok(())
    }
}
