//! Steps that read: each item of a list ends in a comma, and each row of a query, like each line of a text, in a semicolon.

use super::changes::name_of;
use super::words::Words;
use super::{Done, Opened};
use sqlite::Alter;
use std::alloc::Global;
use zeb_keys::Key;
use zeb_leaves::key_count;
use zeb_packed::Blocks;
use zeb_register::{
    DatabaseId, Layout, Posting, Record, RegFault, RegisterOf, TermCount, Work, database_of,
    ident_of, meta_of, record_count, record_from, records,
};

/// A text, if there is one.
fn put(found: Option<String>, text: &mut String) -> Done {
    text.push_str(found.as_deref().unwrap_or("none"))?;
    Ok(())
}

/// A record's number, its identifier and its bytes.
fn put_record(record: &Record, text: &mut String) -> Done {
    let (ident, name) = (record.ident.as_str(), name_of(&record.bytes));
    write!(text, "{} {ident} {name}", record.sysno)?;
    Ok(())
}

fn put_records(all: &[Record], text: &mut String) -> Done {
    for record in all {
        put_record(record, text)?;
        text.push(',')?;
    }
    Ok(())
}

/// Each posting as `1:2.3`, the number of the record, of the unit and of the word in it.
fn put_postings(all: &[Posting], text: &mut String) -> Done {
    for posting in all {
        write!(text, "{}:{}.{},", posting.sysno, posting.seq, posting.pos)?;
    }
    Ok(())
}

/// Each term, and the number of its records.
fn put_counts(all: &[TermCount], text: &mut String) -> Done {
    for count in all {
        write!(text, "{} {},", count.term.as_str(), count.records)?;
    }
    Ok(())
}

fn put_number(number: u64, text: &mut String) -> Done {
    write!(text, "{number}")?;
    Ok(())
}

impl<S: Alter> Opened<S> {
    /// The last number of the database of this name.
    fn last(&mut self, name: &str, text: &mut String) -> Done {
        match database_of(&mut self.conn, name)? {
            Some(database) => put_number(database.last, text),
            None => put(None, text),
        }
    }

    /// The first record from this number on.
    fn first_from(&mut self, db: DatabaseId, number: u64, text: &mut String) -> Done {
        match record_from(&mut self.conn, db, number)? {
            Some(record) => put_record(&record, text),
            None => put(None, text),
        }
    }

    /// Does a step that reads a key: its postings, or by the leaves the number of its records.
    fn read_key<L: Layout>(
        &mut self,
        alloc: Global,
        word: &str,
        (db, key): (DatabaseId, &Key),
        text: &mut String,
    ) -> Done {
        let (conn, work) = (&mut self.conn, &mut Work::default());
        match word {
            "key_list" => put_postings(&L::key_list(alloc, conn, work, db, key)?, text),
            _ => put_number(key_count(alloc, conn, db, key)?, text),
        }
    }

    /// The postings from one term to another. The rows of `blocks` that are counted are told where they are other than these, or than none
    /// in a layout without blocks.
    fn between<L: Layout>(
        &mut self,
        at: RegisterOf,
        mut words: Words<'_>,
        text: &mut String,
    ) -> Done {
        let (first, last, rows) = (words.term()?, words.term()?, words.number()?);
        let (alloc, conn, mut work) = (words.alloc, &mut self.conn, Work::default());
        let all = L::postings_between(alloc, conn, &mut work, at, first, last)?;
        put_postings(&all, text)?;
        drop(all);
        let has_blocks = L::version() == Blocks::version();
        if work.block_read != if has_blocks { rows } else { 0 } {
            write!(text, " of {} rows", work.block_read)?;
        }
        Ok(())
    }

    /// Its terms from a text on or before it.
    fn read_near<L: Layout>(
        &mut self,
        at: RegisterOf,
        word: &str,
        mut words: Words<'_>,
        text: &mut String,
    ) -> Done {
        let (alloc, conn, work) = (words.alloc, &mut self.conn, &mut Work::default());
        let (start, n) = (words.term()?, words.number()?);
        match word {
            "terms_from" => put_counts(&L::terms_from(alloc, conn, work, at, start, n)?, text),
            "terms_before" => put_counts(&L::terms_before(alloc, conn, work, at, start, n)?, text),
            _ => Err(RegFault::Memory),
        }
    }

    /// All its terms.
    fn read_terms<L: Layout>(&mut self, at: RegisterOf, alloc: Global, text: &mut String) -> Done {
        let (conn, work) = (&mut self.conn, &mut Work::default());
        put_counts(&L::terms_of(alloc, conn, work, at)?, text)
    }

    /// The number of its terms and that of its postings.
    fn read_totals<L: Layout>(&mut self, at: RegisterOf, alloc: Global, text: &mut String) -> Done {
        let totals = L::totals(alloc, &mut self.conn, &mut Work::default(), at)?;
        write!(text, "{} {}", totals.terms, totals.occurrences)?;
        Ok(())
    }

    /// Does a step that reads a register.
    fn read_register<L: Layout>(
        &mut self,
        db: DatabaseId,
        word: &str,
        mut words: Words<'_>,
        text: &mut String,
    ) -> Done {
        let (index, register) = words.register()?;
        let at = RegisterOf {
            db,
            index,
            register,
        };
        match word {
            "postings_between" => self.between::<L>(at, words, text),
            "terms_of" => self.read_terms::<L>(at, words.alloc, text),
            "totals" => self.read_totals::<L>(at, words.alloc, text),
            _ => self.read_near::<L>(at, word, words, text),
        }
    }

    /// Does a step that reads records, a list or a register.
    fn read_records<L: Layout>(
        &mut self,
        db: DatabaseId,
        word: &str,
        mut words: Words<'_>,
        text: &mut String,
    ) -> Done {
        match word {
            "key_list" | "key_count" => self.read_key::<L>(
                words.alloc,
                word,
                (db, &words.key()?),
                text,
            ),
            "records" => put_records(&records(words.alloc, &mut self.conn, db)?, text),
            "record_count" => put_number(record_count(&mut self.conn, db)?, text),
            "record_from" => self.first_from(db, words.number()?, text),
            _ => self.read_register::<L>(db, word, words, text),
        }
    }

    /// Does a step in no transaction that calls what reads.
    pub fn read<L: Layout>(&mut self, word: &str, mut words: Words<'_>, text: &mut String) -> Done {
        let db = self.db.ok_or(RegFault::Memory)?;
        match word {
            "meta_of" => put(meta_of(&mut self.conn, words.left)?, text),
            "database_of" => self.last(words.left, text),
            "ident_of" => put(ident_of(&mut self.conn, db, words.number()?)?, text),
            _ => self.read_records::<L>(db, word, words, text),
        }
    }
}
