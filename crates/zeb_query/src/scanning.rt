//! The plan of a scan, which begins at a term.
ghost use Rattle.std.specs.Prelude.{IfOk, string_bytes};
ghost use Rattle.zeb_query.specs.Clauses.{query_value, head_value, heads, no_head, holding_of, Gives};
ghost use Rattle.zeb_query.specs.Plans as scans;
ghost use Rattle.zeb_query.specs.PrivatePlanning as steps;

use crate::diagnostics::{Condition, Site};
use crate::holding::Holding;
use crate::planning::{named_set, number_in};
use crate::terms::{index_in, taken_term};
use crate::values::{Purpose, Values};
use crate::{Leaf, Query, QueryFault, ScanPlan, Tree};
use std::alloc::Global;
use zeb_profile::Profile;
use zeb_text::{join, key_of_number, words};

/// The plan of a scan that begins at a query's term.
///
/// The faults are those of [`plan`](crate::plan), but an operator is 110 about its word, and 123 is answered also for
/// a relation other than equal, a position other than any, a truncation, and a structure other than phrase, word and
/// numeric string. The start is the term's words joined by one space, or the key of its number. What a scan takes is this
/// project's own rule.
pub fn plan_scan(alloc: Global, query: &Query, profile: &Profile) -> Result<ScanPlan, QueryFault>
    ensures planned { Gives scans.scan_value result
        (scans.scan_of profile.now (query_value query.now)) }
    ensures number { IfOk result (λ plan. scans.BeginsAtKey (scans.scan_value plan)) }
{
    match &query.tree {
        Tree::Term(leaf) => scan_leaf(alloc, leaf, query, profile),
        Tree::Named(leaf) => Err(named_set(alloc, leaf)),
        Tree::Pair {
            place,
            connective,
            ..
        } => {
            let place = *place;
            Err(Site { alloc, place }.about(Condition::Operator, connective.word()))
        }
    }
}

#[tactic(auto, unfolding(crate::specs::PrivatePlanning::leaf_scan))]
fn scan_leaf(
    alloc: Global,
    leaf: &Leaf,
    query: &Query,
    profile: &Profile,
) -> Result<ScanPlan, QueryFault>
    ensures { Gives scans.scan_value result (steps.leaf_scan profile.now
        (holding_of (query_value query.now).attrset (heads no_head (head_value leaf.now.head)))
        leaf.now.place (string_bytes leaf.now.text)) }
{
    let place = leaf.place;
    let site = Site { alloc, place };
    let text = leaf.text.as_str();
    let holding = Holding::over(query).within(&leaf.head);
    let (values, _) = taken_term(site, text, &holding, profile, Purpose::Scan)?;
    let index = index_in(site, values.subject)?;
    let start = start_of(site, text, &values)?;
    Ok(ScanPlan {
        index,
        register: values.register(),
        start,
    })
}

/// The entry to begin with.
#[tactic(auto, unfolding(crate::specs::PrivatePlanning::scan_start))]
fn start_of(site: Site, text: &str, values: &Values) -> Result<String, QueryFault>
    ensures { Gives (λ start. string_bytes start) result
        (steps.scan_start site.place text.now values.now.subject) }
{
    if values.is_numeric() {
        let number = number_in(site, text)?;
        Ok(key_of_number(site.alloc, number)?)
    } else {
        Ok(join(site.alloc, &words(site.alloc, text)?)?)
    }
}
