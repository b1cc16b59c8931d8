//! Reading a term: the values of its attributes and the patterns of its words, or its first diagnostic.
ghost use Rattle.std.specs.Prelude.{option_copied};
ghost use Rattle.zeb_query.specs.Clauses.{Gives, condition_number, holding_value};
ghost use Rattle.zeb_query.specs.PrivatePlanning as steps;

use crate::QueryFault;
use crate::attributes::{
    completeness_of, is_local_number, position_of, relation_of, structure_of, truncation_of,
};
use crate::diagnostics::{Condition, Site};
use crate::digits::short_number;
use crate::holding::Holding;
use crate::values::{Purpose, Subject, Values};
use zeb_profile::Profile;
use zeb_text::{Pattern, pattern_words};

/// The greatest number of words in a term, a limit of this project's own.
const MOST_WORDS: usize = 64;

/// The use attribute that holds where none is given: 1016, any.
const ANY: u32 = 1016;

/// The value, or the diagnostic about the attribute's text where that isn't supported.
pub(crate) fn kept<T>(
    site: Site,
    condition: Condition,
    written: Option<&str>,
    value: Option<T>,
) -> Result<T, QueryFault>
    ensures { Gives (λ x. x) result (steps.kept_or (condition_number condition) site.place
        (option_copied written.entry) value) }
{
    match value {
        Some(value) => Ok(value),
        None => Err(site.about(condition, written.unwrap_or(""))),
    }
}

/// The index of a use attribute: that of its number, or of its name where it is no number. A term that is a local number has none.
fn index_of(
    site: Site,
    written: Option<&str>,
    local: bool,
    profile: &Profile,
) -> Result<Option<u32>, QueryFault>
    ensures { Gives (λ x. x) result
        (steps.index_read profile.now site.place local (option_copied written.entry)) }
{
    if local {
        return Ok(None);
    }
    let Some(text) = written else {
        let index = profile.index_by_use(ANY);
        return Ok(Some(kept(site, Condition::NoUseAttribute, None, index)?));
    };
    let index = match short_number(text) {
        Some(number) => profile.index_by_use(number),
        None => profile.index_by_name(text),
    };
    Ok(Some(kept(site, Condition::UseAttribute, written, index)?))
}

/// What a term names with this structure, which has an index where it is no local number.
fn subject_of(site: Site, written: Option<&str>, index: Option<u32>) -> Result<Subject, QueryFault>
    ensures { Gives (λ x. x) result
        (steps.subject_read site.place (option_copied written.entry) index) }
{
    let Some(index) = index else {
        return Ok(Subject::Record);
    };
    let structure = kept(site, Condition::Structure, written, structure_of(written))?;
    Ok(Subject::Entries { index, structure })
}

/// The values of the six attribute types, or the diagnostic of the first one that isn't supported.
#[tactic(auto, unfolding(crate::specs::PrivatePlanning::values_read))]
fn values_of(site: Site, holding: &Holding<'_>, profile: &Profile) -> Result<Values, QueryFault>
    ensures { Gives (λ x. x) result
        (steps.values_read profile.now site.place (holding_value holding.now)) }
{
    let local = is_local_number(holding.structure);
    let index = index_of(site, holding.use_attribute, local, profile)?;
    let relation = relation_of(holding.relation);
    let relation = kept(site, Condition::Relation, holding.relation, relation)?;
    let position = position_of(holding.position);
    let position = kept(site, Condition::Position, holding.position, position)?;
    let subject = subject_of(site, holding.structure, index)?;
    let cut = truncation_of(holding.truncation);
    let truncation = kept(site, Condition::Truncation, holding.truncation, cut)?;
    let whole = completeness_of(holding.completeness);
    let completeness = kept(site, Condition::Completeness, holding.completeness, whole)?;
    Ok(Values {
        subject,
        relation,
        position,
        truncation,
        completeness,
    })
}

/// The faults of a term's type and of the sets and types of the attributes over it.
#[tactic(auto, unfolding(crate::specs::PrivatePlanning::head_read))]
fn check_holding(site: Site, holding: &Holding<'_>) -> Result<(), QueryFault>
    ensures { Gives (λ x. x) result (steps.head_read site.place (holding_value holding.now)) }
{
    match holding.term_type {
        Some(text) if text != "general" && text != "string" => {
            return Err(site.about(Condition::TermType, text));
        }
        _ => {}
    }
    if let Some(set) = holding.other_set {
        return Err(site.about(Condition::AttributeSet, set));
    }
    if let Some(kind) = holding.other_kind {
        let text = kind.to_string(site.alloc)?;
        return Err(site.about(Condition::AttributeType, text.as_str()));
    }
    Ok(())
}

/// The patterns of a term's words; none where the words aren't compared.
fn patterns_for(site: Site, text: &str, values: &Values) -> Result<Vec<Pattern>, QueryFault>
    ensures { Gives (λ patterns. patterns.items) result
        (steps.patterns_read site.place text.now values.now) }
{
    if !values.compares_words() {
        return Ok(Vec::new(site.alloc));
    }
    let patterns = pattern_words(site.alloc, text, values.truncation, values.spread())?;
    if patterns.len() > MOST_WORDS {
        return Err(site.refused(Condition::TooManyWords));
    }
    Ok(patterns)
}

/// The values of a term's attributes and the patterns of its words, none where these aren't compared; or the first diagnostic of: the
/// term's type, the sets and types of the attributes, their values, the number of words, and, for this purpose, values that aren't
/// taken together, or an index that has no target with the searched register.
#[tactic(auto, unfolding(crate::specs::PrivatePlanning::term_taken))]
pub(crate) fn taken_term(
    site: Site,
    text: &str,
    holding: &Holding<'_>,
    profile: &Profile,
    purpose: Purpose,
) -> Result<(Values, Vec<Pattern>), QueryFault>
    ensures { Gives (λ read. (read.0, read.1.items)) result
        (steps.term_taken profile.now purpose site.place text.now (holding_value holding.now)) }
{
    check_holding(site, holding)?;
    let values = values_of(site, holding, profile)?;
    let patterns = patterns_for(site, text, &values)?;
    if values.clashes(purpose) || values.lacks_register(profile) {
        return Err(site.refused(Condition::Combination));
    }
    Ok((values, patterns))
}

/// The index in which a term is looked up, which a local number hasn't got.
pub(crate) fn index_in(site: Site, subject: Subject) -> Result<u32, QueryFault>
    ensures { Gives (λ x. x) result (steps.subject_index site.place subject) }
{
    match subject {
        Subject::Record => Err(site.refused(Condition::Combination)),
        Subject::Entries { index, .. } => Ok(index),
    }
}
