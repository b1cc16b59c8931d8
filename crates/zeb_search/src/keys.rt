//! The keys of a register's terms that a step of a search asks for.

ghost use Rattle.std.specs.Prelude.{IfOk, IsTrue};
ghost use Rattle.sqlite.specs.Held.{state};
ghost use Rattle.zeb_search.specs.PrivateTerms.{AreTaken, LeadsTo, StandTogether, TermsRise};
ghost use Rattle.zeb_search.specs.PrivateSearching.{SearchesKeys, SearchesTerms};

use crate::terms::Wanted;
use sqlite::{Alter, Connection};
use std::alloc::{AllocError, Global};
use zeb_keys::{Key, Register};
use zeb_register::for_layouts::text_above;
use zeb_register::{Layout, RegFault, RegisterOf, TermCount, Work};

/// How many terms of a register are read at first. Most patterns match few terms, and each term that is read costs as much as a short
/// list of postings.
const FIRST_PAGE: u64 = 16;

/// How many terms of a register are read at a time at most.
const GREATEST_PAGE: u64 = 256;

/// The keys of terms that are asked for, in the order of the terms.
#[derive(Drop)]
pub(crate) struct FoundKeys {
    pub keys: Vec<Key>,
    /// Whether each term of the register that stands between two of them is known to be one of them.
    pub are_neighbours: bool,
}

/// Whether each of the terms that stands between two that are asked for is asked for too.
fn stand_together(wanted: Wanted<'_>, terms: &[TermCount]) -> bool
    ensures { TermsRise terms.now → IsTrue result → StandTogether wanted.entry terms.now }
{
    let mut has_begun = false;
    let mut has_ended = false;
    for term in terms {
        if wanted.takes(term.term.as_str()) {
            if has_ended {
                return false;
            }
            has_begun = true;
        } else if has_begun {
            has_ended = true;
        }
    }
    true
}

/// The keys of those of the terms that are asked for.
fn keys_of(
    alloc: Global,
    index: u32,
    register: Register,
    terms: Vec<TermCount>,
    wanted: Wanted<'_>,
) -> Result<Vec<Key>, AllocError>
    ensures { IfOk result (λ keys. AreTaken index register wanted.entry terms.items keys.items) }
{
    let mut keys = Vec::new(alloc);
    for TermCount { term, .. } in terms {
        if wanted.takes(term.as_str()) {
            keys.push(Key {
                index,
                register,
                term,
            })?;
        }
    }
    Ok(keys)
}

/// Where the page behind this one begins, or `None` where no term behind it is asked for.
fn next_start(
    alloc: Global,
    wanted: Wanted<'_>,
    page: &[TermCount],
) -> Result<Option<String>, AllocError>
    ensures { IfOk result (λ next. LeadsTo wanted.entry page.now next) }
{
    let Some(last) = page.last() else {
        return Ok(None);
    };
    let term = last.term.as_str();
    if wanted.ends_at(term) {
        return Ok(None);
    }
    Ok(Some(text_above(alloc, term)?))
}

/// Terms of a register, among which are those that are asked for: all at once, or page by page, each twice as long as the one before up to
/// 256 terms, from the first term that may be asked for until one behind which none is.
fn terms_wanted<S: Alter, L: Layout>(
    alloc: Global,
    connection: &mut Connection<S>,
    work: &mut Work,
    of: RegisterOf,
    wanted: Wanted<'_>,
) -> Result<Vec<TermCount>, RegFault>
    ensures { SearchesTerms L.format L.row_work of wanted.entry
        (state S.Store connection.old) (state S.Store connection.new) work.old work.new result }
{
    if wanted.spans_register() {
        return L::terms_of(alloc, connection, work, of);
    }
    let mut terms = Vec::new(alloc);
    let mut start = wanted.start(alloc)?;
    let mut page_terms = FIRST_PAGE;
    'pages: loop {
        let mut page = L::terms_from(alloc, connection, work, of, start.as_str(), page_terms)?;
        let next = next_start(alloc, wanted, &page)?;
        terms.append(&mut page)?;
        match next {
            Some(next) => start = next,
            None => return Ok(terms),
        }
        if page_terms < GREATEST_PAGE {
            page_terms *= 2;
        }
    }
}

/// The keys of a register's terms that are asked for, and whether these are neighbours there. A pattern without a star is its own term,
/// which is looked for in no list.
pub(crate) fn keys_wanted<S: Alter, L: Layout>(
    alloc: Global,
    connection: &mut Connection<S>,
    work: &mut Work,
    of: RegisterOf,
    wanted: Wanted<'_>,
) -> Result<FoundKeys, RegFault>
    ensures { SearchesKeys L.format L.row_work of wanted.entry
        (state S.Store connection.old) (state S.Store connection.new) work.old work.new result }
{
    if let Some(term) = wanted.only_text(alloc)? {
        let mut keys = Vec::new(alloc);
        keys.push(Key {
            index: of.index,
            register: of.register,
            term,
        })?;
        return Ok(FoundKeys {
            keys,
            are_neighbours: false,
        });
    }
    let terms = terms_wanted::<S, L>(alloc, connection, work, of, wanted)?;
    let are_neighbours = stand_together(wanted, &terms);
    let keys = keys_of(alloc, of.index, of.register, terms, wanted)?;
    Ok(FoundKeys {
        keys,
        are_neighbours,
    })
}
