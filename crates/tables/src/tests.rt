//! Tables of steps on the register's tables: each line is a step, and behind ` ->` what it has to answer, a fault by its name. A step
//! without an arrow answers nothing. A new store begins behind each empty line.

use crate::queries::{execute, rows};
use sqlite::{Alter, Connection};
use std::alloc::Global;
use std::test::Fail;
use zeb_leaves::Leaves;
use zeb_packed::Blocks;
use zeb_register::{DatabaseId, Layout, RegFault, Rows, database_of};

mod changes;
mod damage;
mod files;
mod leaves;
mod lists;
mod memory;
mod moby_dick;
mod paths;
mod reads;
mod records;
mod runs;
mod scanning;
mod steps;
mod words;

use words::Words;

/// Whether a step was done. What it answers is written to a text.
type Done = Result<(), RegFault>;

/// Whether all that was asked got its answer.
type Outcome = Result<(), Fail>;

/// An open store, and the database that was put or used last, which steps are on.
#[derive(Drop)]
struct Opened<S: Alter> {
    conn: Connection<S>,
    db: Option<DatabaseId>,
}

/// Lines that several tables have, by the name that stands there behind `with`.
fn part(name: &str) -> &'static str {
    match name {
        "made" => "do make_tables",
        "begun" => moby_dick::BEGUN,
        "default" => "do database_put Default 2",
        "filled" => moby_dick::FILLED,
        "posted" => moby_dick::POSTED,
        "answers" => moby_dick::ANSWERS,
        "terms" => scanning::TERMS,
        "first" => leaves::FIRST,
        "second" => leaves::SECOND,
        "whole" => leaves::WHOLE,
        _ => "no such part",
    }
}

/// The postings, with the database's name for its number.
static POSTINGS: &str =
    "SELECT name, idx, reg, term, sysno, seq, pos FROM postings JOIN databases ON id = db ORDER BY name, idx, reg, term, sysno, seq, pos";

/// The records likewise.
static KEPT: &str =
    "SELECT name, sysno, ident, bytes FROM records JOIN databases ON id = db ORDER BY name, sysno";

/// How many rows each table has.
static COUNTS: &str =
    "SELECT (SELECT count(*) FROM meta), (SELECT count(*) FROM databases), (SELECT count(*) FROM records), (SELECT count(*) FROM postings), (SELECT count(*) FROM blocks), (SELECT count(*) FROM dict)";

/// A query by its name, or the step itself.
fn query_of(step: &str) -> &str {
    match step {
        "postings" => POSTINGS,
        "kept" => KEPT,
        "counts" => COUNTS,
        step => step,
    }
}

/// What stands before a line for this layout alone, and what before those for the others.
fn words_of<L: Layout>() -> (&'static str, [&'static str; 2]) {
    if L::version() == Rows::version() {
        return ("plain ", ["packed ", "leaves "]);
    }
    if L::version() == Blocks::version() {
        return ("packed ", ["plain ", "leaves "]);
    }
    ("leaves ", ["plain ", "packed "])
}

/// A line's step and answer, if it is no remark and no line for another layout alone.
fn row_of<L: Layout>(line: &str) -> Option<(&str, &str)> {
    let (own, [one, other]) = words_of::<L>();
    if line.starts_with('#') || line.starts_with(one) || line.starts_with(other) {
        return None;
    }
    let line = line.strip_prefix(own).unwrap_or(line);
    let (step, wanted) = line.split_once(" ->").unwrap_or((line, ""));
    Some((query_of(step), wanted.strip_prefix(' ').unwrap_or(wanted)))
}

impl<S: Alter> Opened<S> {
    /// Does a step, one behind `do` or `undo` in a transaction that is then committed or given up.
    fn step<L: Layout>(&mut self, alloc: Global, step: &str, text: &mut String) -> Done {
        let mut words = Words { alloc, left: step };
        match words.word() {
            "do" => self.change_alone::<L>(words, true, text),
            "undo" => self.change_alone::<L>(words, false, text),
            "UPDATE" | "INSERT" => execute(&mut self.conn, step, text),
            "SELECT" => rows(&mut self.conn, step, text),
            word => self.read::<L>(word, words, text),
        }
    }

    /// What a step answers. One behind `use` has the steps that follow be on that database, and one behind `limit` limits each statement.
    fn answer<L: Layout>(&mut self, alloc: Global, step: &str, text: &mut String) -> Done {
        let (word, rest) = step.split_once(' ').unwrap_or((step, ""));
        match word {
            "use" => self.db = database_of(&mut self.conn, rest)?.map(|found| found.id),
            "limit" => self.conn.set_step_limit(rest.parse().ok()),
            _ => self.step::<L>(alloc, step, text)?,
        }
        Ok(())
    }

    /// Puts the same, a fault by its name.
    fn tell<L: Layout>(&mut self, alloc: Global, step: &str, text: &mut String) -> Outcome {
        if let Err(fault) = self.answer::<L>(alloc, step, text) {
            text.clear();
            write!(text, "{fault}")?;
        }
        Ok(())
    }

    /// The same on one line.
    fn told<L: Layout>(&mut self, alloc: Global, step: &str) -> Result<String, Fail> {
        let mut text = String::new(alloc);
        self.tell::<L>(alloc, step, &mut text)?;
        Ok(text.replace(alloc, '\n', ";")?)
    }

    /// A line gets its answer.
    fn run_line<L: Layout>(&mut self, alloc: Global, line: &str) -> Outcome {
        let Some((step, wanted)) = row_of::<L>(line) else {
            return Ok(());
        };
        let text = self.told::<L>(alloc, step)?;
        if text.as_str() == wanted {
            return Ok(());
        }
        Err(Fail::new(format!(in alloc; "{line}: {text}")?))
    }

    /// Each line gets its answer.
    fn answers<L: Layout>(&mut self, alloc: Global, lines: &str) -> Outcome {
        for line in lines.split('\n') {
            self.run_line::<L>(alloc, line)?;
        }
        Ok(())
    }

    /// Each line of these parts gets its answer.
    fn parts<L: Layout>(&mut self, alloc: Global, names: &str) -> Outcome {
        for name in names.split(' ') {
            self.answers::<L>(alloc, part(name))?;
        }
        Ok(())
    }

    /// Runs a table.
    fn run<L: Layout>(&mut self, alloc: Global, table: &str) -> Outcome {
        for line in table.split('\n') {
            match line.strip_prefix("with ") {
                Some(names) => self.parts::<L>(alloc, names)?,
                None => self.run_line::<L>(alloc, line)?,
            }
        }
        Ok(())
    }
}

/// Runs each table over a new store in memory.
fn run_all<L: Layout>(alloc: Global, tables: &str) -> Outcome {
    for table in tables.split("\n\n") {
        let conn = Connection::open_in_memory(alloc)?;
        Opened { conn, db: None }.run::<L>(alloc, table)?;
    }
    Ok(())
}

/// Runs each table in each layout.
fn run_in_each(alloc: Global, tables: &str) -> Outcome {
    run_all::<Rows>(alloc, tables)?;
    run_all::<Blocks>(alloc, tables)?;
    run_all::<Leaves>(alloc, tables)
}

#[test]
fn records_and_lists_stand_as_they_were_put(rt: HostRuntime) -> Outcome {
    for tables in [
        moby_dick::TABLES,
        records::TABLES,
        lists::TABLES,
        runs::TABLES,
    ] {
        run_in_each(rt.alloc(), tables)?;
    }
    Ok(())
}

#[test]
fn terms_come_in_the_order_of_their_bytes(rt: HostRuntime) -> Outcome {
    run_in_each(rt.alloc(), scanning::TABLES)?;
    run_in_each(rt.alloc(), scanning::NEIGHBOURS)
}

#[test]
fn leaves_are_read_and_changed(rt: HostRuntime) -> Outcome {
    run_all::<Leaves>(rt.alloc(), leaves::TABLES)
}

#[test]
fn damage_is_answered_where_it_is_read(rt: HostRuntime) -> Outcome {
    run_in_each(rt.alloc(), damage::TABLES)?;
    run_all::<Rows>(rt.alloc(), damage::OF_POSTINGS)
}

#[test]
fn a_call_on_one_key_or_record_looks_at_few_rows(rt: HostRuntime) -> Outcome {
    run_in_each(rt.alloc(), steps::TABLES)
}
