//! An analysis as it is printed.
ghost use Rattle.std.specs.Prelude.{◌≡◌, IfOk, map, string_bytes};
ghost use Rattle.zeb_analysis.specs.Analysing.{analysed};
ghost use Rattle.zeb_analysis.specs.Printing.{analysis_text, name_at, occurrence_line, printed_number, printed_term, record_line};

use crate::analysing::Analysis;
use std::alloc::{AllocError, Global};
use zeb_keys::{Occurrence, Register};
use zeb_text::number_of_key;

/// The number of a key without leading zeros; another text as it is.
fn number_text(alloc: Global, term: &str) -> Result<String, AllocError>
    ensures { IfOk result (λ text. string_bytes text ≡ printed_number term.now) }
{
    match number_of_key(term) {
        Some(number) => number.to_string(alloc),
        None => String::from_str(alloc, term),
    }
}

fn term_text(alloc: Global, register: Register, term: &str) -> Result<String, AllocError>
    ensures { IfOk result (λ text. string_bytes text ≡ printed_term register term.now) }
{
    match register {
        Register::Word | Register::Phrase => String::from_str(alloc, term),
        Register::Number => number_text(alloc, term),
    }
}

/// The name of an index, which stands at its number; of one that has none the empty text.
fn name_of(names: &[String], index: u32) -> &str
    ensures { result.now ≡ name_at (map string_bytes names.now) index }
{
    match names.get(index as usize) {
        Some(name) => name.as_str(),
        None => "",
    }
}

fn occurrence_text(
    alloc: Global,
    names: &[String],
    occurrence: &Occurrence,
) -> Result<String, AllocError>
    ensures { IfOk result (λ text. string_bytes text
        ≡ occurrence_line (map string_bytes names.now) occurrence.now) }
{
    let name = name_of(names, occurrence.key.index);
    let register = occurrence.key.register;
    let (seq, pos) = (occurrence.seq, occurrence.pos);
    let shown = term_text(alloc, register, occurrence.key.term.as_str())?;
    let term = shown.as_str();
    format!(in alloc; "{name}:{register} {seq} {pos} {term}\n")
}

fn record_text(alloc: Global, analysis: &Analysis) -> Result<String, AllocError>
    ensures { IfOk result (λ text. string_bytes text ≡ record_line (analysed analysis.now)) }
{
    let (file, nth) = (analysis.place.file, analysis.place.nth);
    let ident = analysis.ident.as_str();
    format!(in alloc; "record {file} {nth} {ident}\n")
}

/// The lines of an analysis: `record FILE RECORD IDENT`, and for each occurrence `NAME:REG SEQ POS TERM`, each ended by LF; a
/// number's term is printed without leading zeros.
///
/// `names`: the names of the indexes, each at its number. An index that has none there is printed with no name.
/// `AllocError` says that memory was refused.
pub fn analysis_lines(
    alloc: Global,
    names: &[String],
    analysis: &Analysis,
) -> Result<String, AllocError>
    ensures { IfOk result (λ text. string_bytes text
        ≡ analysis_text (map string_bytes names.now) (analysed analysis.now)) }
{
    let mut text = record_text(alloc, analysis)?;
    for occurrence in &analysis.occurrences {
        text.push_str(occurrence_text(alloc, names, occurrence)?.as_str())?;
    }
    Ok(text)
}
