//! What an accepted command answers.

ghost use Rattle.std.specs.Prelude.{◌≡◌, ◌++◌, IfOk, map, string_bytes};
ghost use Rattle.std.specs.List.{flat_map};

use std::alloc::{AllocError, Global};
use zeb_analysis::{Analysis, analysis_lines};
use zeb_keys::Register;
use zeb_register::TermCount;
use zeb_text::number_of_key;

/// A record that a find shows.
#[derive(Debug, Drop)]
pub struct Hit {
    /// Its system number, from 1.
    pub sysno: u64,
    /// Its identifier.
    pub ident: String,
}

/// How much a database has in one register.
#[derive(Debug, Drop)]
pub struct Holding {
    /// The name of the index.
    pub index: String,
    /// Which of the index's registers it is.
    pub register: Register,
    /// How many terms it has.
    pub terms: u64,
    /// How many occurrences its terms have.
    pub occurrences: u64,
}

/// What an accepted command answers.
#[derive(Debug, Drop)]
pub enum Reply {
    /// Done, with nothing to tell.
    Done,
    /// How many records a change has added, replaced and taken away.
    Changed {
        inserted: u64,
        updated: u64,
        deleted: u64,
    },
    /// How many records a query finds, and those of them that were asked for.
    Found {
        hits: u64,
        shown: Vec<Hit>,
    },
    /// Terms of a register in the order of their bytes, each with the number of records that have it.
    Scanned {
        register: Register,
        entries: Vec<TermCount>,
    },
    /// How many records a database has, the last number that it gave, and how much it has in each register that the
    /// profile names.
    Counted {
        records: u64,
        last: u64,
        holdings: Vec<Holding>,
    },
    /// The bytes of a database's records, one after the other.
    Dumped(Vec<u8>),
    /// The records of files with what each is found by, and the names of the profile's indexes, each at its number.
    Analysed {
        names: Vec<String>,
        records: Vec<Analysis>,
    },
}

ghost use Rattle.zeb_engine.specs.Replies.{reply_text, hits_text, changed_text, hit_line, entry_line, shown_number, shown_term, holding_line, record_lines, records_text};

fn changed_line(
    alloc: Global,
    inserted: u64,
    updated: u64,
    deleted: u64,
) -> Result<String, AllocError>
    ensures { IfOk result (λ text. string_bytes text ≡ changed_text inserted updated deleted) }
{
    format!(in alloc; "inserted {inserted} updated {updated} deleted {deleted}\n")
}

fn hit_text(alloc: Global, hit: &Hit) -> Result<String, AllocError>
    ensures { IfOk result (λ text. string_bytes text ≡ hit_line hit.now) }
{
    let sysno = hit.sysno;
    let ident = hit.ident.as_str();
    format!(in alloc; "{sysno} {ident}\n")
}

fn found_lines(alloc: Global, hits: u64, shown: &[Hit]) -> Result<String, AllocError>
    ensures { IfOk result (λ text. string_bytes text ≡ hits_text hits ++ flat_map hit_line
        shown.now) }
{
    let mut text = format!(in alloc; "hits {hits}\n")?;
    for hit in shown {
        text.push_str(hit_text(alloc, hit)?.as_str())?;
    }
    Ok(text)
}

/// The number of a key without leading zeros; another text as it is.
fn number_text(alloc: Global, term: &str) -> Result<String, AllocError>
    ensures { IfOk result (λ text. string_bytes text ≡ shown_number term.now) }
{
    match number_of_key(term) {
        Some(number) => number.to_string(alloc),
        None => String::from_str(alloc, term),
    }
}

fn term_text(alloc: Global, register: Register, term: &str) -> Result<String, AllocError>
    ensures { IfOk result (λ text. string_bytes text ≡ shown_term register term.now) }
{
    match register {
        Register::Word | Register::Phrase => String::from_str(alloc, term),
        Register::Number => number_text(alloc, term),
    }
}

fn entry_text(alloc: Global, register: Register, entry: &TermCount) -> Result<String, AllocError>
    ensures { IfOk result (λ text. string_bytes text ≡ entry_line register entry.now) }
{
    let shown = term_text(alloc, register, entry.term.as_str())?;
    let term = shown.as_str();
    let records = entry.records;
    format!(in alloc; "{term} {records}\n")
}

fn entry_lines(
    alloc: Global,
    register: Register,
    entries: &[TermCount],
) -> Result<String, AllocError>
    ensures { IfOk result (λ text. string_bytes text ≡ flat_map (entry_line register) entries.now) }
{
    let mut text = String::new(alloc);
    for entry in entries {
        text.push_str(entry_text(alloc, register, entry)?.as_str())?;
    }
    Ok(text)
}

fn holding_text(alloc: Global, holding: &Holding) -> Result<String, AllocError>
    ensures { IfOk result (λ text. string_bytes text ≡ holding_line holding.now) }
{
    let index = holding.index.as_str();
    let register = holding.register;
    let (terms, occurrences) = (holding.terms, holding.occurrences);
    format!(in alloc; "{index}:{register} {terms} {occurrences}\n")
}

fn counted_lines(
    alloc: Global,
    records: u64,
    last: u64,
    holdings: &[Holding],
) -> Result<String, AllocError>
    ensures { IfOk result (λ text. string_bytes text ≡ records_text records last ++ flat_map
        holding_line holdings.now) }
{
    let mut text = format!(in alloc; "records {records}\nlast {last}\n")?;
    for holding in holdings {
        text.push_str(holding_text(alloc, holding)?.as_str())?;
    }
    Ok(text)
}

fn analysed_lines(
    alloc: Global,
    names: &[String],
    records: &[Analysis],
) -> Result<String, AllocError>
    ensures { IfOk result (λ text. string_bytes text ≡ flat_map
        (record_lines (map string_bytes names.now)) records.now) }
{
    let mut text = String::new(alloc);
    for record in records {
        text.push_str(analysis_lines(alloc, names, record)?.as_str())?;
    }
    Ok(text)
}

/// The bytes that are printed for a reply: lines, each ended by LF, or the bytes of a dump alone.
pub fn render(alloc: Global, reply: &Reply) -> Result<Vec<u8>, AllocError>
    ensures { IfOk result (λ bytes. bytes.items ≡ reply_text reply.now) }
{
    let text = match reply {
        Reply::Done => String::from_str(alloc, "ok\n")?,
        Reply::Changed {
            inserted,
            updated,
            deleted,
        } => changed_line(alloc, *inserted, *updated, *deleted)?,
        Reply::Found { hits, shown } => found_lines(alloc, *hits, shown)?,
        Reply::Scanned { register, entries } => entry_lines(alloc, *register, entries)?,
        Reply::Counted {
            records,
            last,
            holdings,
        } => counted_lines(alloc, *records, *last, holdings)?,
        Reply::Dumped(bytes) => return Vec::from_slice(alloc, bytes),
        Reply::Analysed { names, records } => analysed_lines(alloc, names, records)?,
    };
    Ok(text.into_bytes())
}
