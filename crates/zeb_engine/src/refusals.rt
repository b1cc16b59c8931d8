//! What is printed for a refusal, and the status that goes with it.

ghost use Rattle.std.specs.Prelude.{◌≡◌, IfOk, string_bytes};
ghost use Rattle.zeb_engine.specs.Refusals.{refusal_text, diagnostic_at, diagnostic_text, record_text, unknown_text, read_text, status_of};

use std::alloc::{AllocError, Global};
use zeb_change::{RecordFault, Refusal};

fn diagnostic_head(alloc: Global, number: u32, place: usize) -> Result<String, AllocError>
    ensures { IfOk result (λ text. string_bytes text ≡ diagnostic_at number place) }
{
    format!(in alloc; "zebraidx: diagnostic {number} at {place}")
}

fn diagnostic_line(
    alloc: Global,
    number: u32,
    place: usize,
    addinfo: &str,
) -> Result<String, AllocError>
    ensures { IfOk result (λ text. string_bytes text ≡ diagnostic_text number place addinfo.now) }
{
    let mut text = diagnostic_head(alloc, number, place)?;
    if !addinfo.is_empty() {
        text.push_str(": ")?;
        text.push_str(addinfo)?;
    }
    Ok(text)
}

fn record_line(alloc: Global, file: u64, nth: u64, fault: RecordFault) -> Result<String, AllocError>
    ensures { IfOk result (λ text. string_bytes text ≡ record_text file nth fault) }
{
    let name = fault.name();
    format!(in alloc; "zebraidx: file {file} record {nth}: {name}")
}

fn unknown_line(alloc: Global, file: u64, nth: u64) -> Result<String, AllocError>
    ensures { IfOk result (λ text. string_bytes text ≡ unknown_text file nth) }
{
    format!(in alloc; "zebraidx: file {file} record {nth}: unknown identifier")
}

fn read_line(alloc: Global, file: u64) -> Result<String, AllocError>
    ensures { IfOk result (λ text. string_bytes text ≡ read_text file) }
{
    format!(in alloc; "zebraidx: file {file}: read fault")
}

/// The line that is printed for a refusal, without its LF.
pub fn refusal_line(alloc: Global, refusal: &Refusal) -> Result<String, AllocError>
    ensures { IfOk result (λ text. string_bytes text ≡ refusal_text refusal.now) }
{
    let text = match refusal {
        Refusal::Diagnostic {
            number,
            place,
            addinfo,
        } => return diagnostic_line(alloc, *number, *place, addinfo.as_str()),
        Refusal::Record { file, nth, fault } => return record_line(alloc, *file, *nth, *fault),
        Refusal::Unknown { file, nth } => return unknown_line(alloc, *file, *nth),
        Refusal::ReadFault { file } => return read_line(alloc, *file),
        Refusal::NotInitialised => "zebraidx: register not initialised",
        Refusal::OldFormat => "zebraidx: register has another format",
        Refusal::ProfileChanged => "zebraidx: profile differs from the register's",
        Refusal::Exists => "zebraidx: database exists",
        Refusal::DatabaseFull => "zebraidx: database full",
        Refusal::TooManyRecords => "zebraidx: too many records",
        Refusal::Damaged => "zebraidx: register damaged",
        Refusal::IdentifierRuleChanged => "zebraidx: identifier rule differs",
        Refusal::Store => "zebraidx: store fault",
        Refusal::Memory => "zebraidx: out of memory",
    };
    String::from_str(alloc, text)
}

/// The status that a refusal ends the program with: 3 where reading, the store or memory failed, else 1.
pub fn status(refusal: &Refusal) -> u8
    ensures { result ≡ status_of refusal.now }
{
    match refusal {
        Refusal::ReadFault { .. } | Refusal::Store | Refusal::Memory => 3,
        _ => 1,
    }
}
