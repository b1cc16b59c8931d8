//! The plan of `@prox`: two words near each other in one unit.
ghost use Rattle.std.specs.Prelude.{◌≡◌, List, ℕ, Option, string_bytes};
ghost use Rattle.zeb_query.specs.Clauses.{HeadValue, parameters_value, tree_value, head_value, heads, kept_text, Gives, one_of, operand_of, orderings, distance_relations, holding_of, holding_value, plan_value};
ghost use Rattle.zeb_query.specs.PrivatePlanning as steps;

use crate::diagnostics::{Condition, Site};
use crate::digits::short_number;
use crate::holding::Holding;
use crate::terms::{index_in, kept, taken_term};
use crate::values::Purpose;
use crate::{DistanceRelation, Leaf, NearPlan, Parameters, Plan, QueryFault, Separation, Tree};
use std::alloc::Global;
use zeb_profile::Profile;
use zeb_text::Pattern;

/// The plan of `@prox` and its operands: its parameters are looked at first, then the left operand, then the right one,
/// and then whether both look into one index.
#[tactic(auto, unfolding(crate::specs::PrivatePlanning::near_plan))]
pub(crate) fn plan_near(
    site: Site,
    parameters: &Parameters,
    left: &Tree,
    right: &Tree,
    over: Holding<'_>,
    profile: &Profile,
) -> Result<Plan, QueryFault>
    ensures { (set : Option (List ℕ)) (outer : HeadValue)
        → holding_value over.entry ≡ holding_of set outer
        → Gives plan_value result (steps.near_plan profile.now site.place
        (parameters_value parameters.now) (operand_of set outer (tree_value left.now))
        (operand_of set outer (tree_value right.now))) }
{
    let separation = separation_of(site, parameters)?;
    let (Tree::Term(left), Tree::Term(right)) = (left, right) else {
        return Err(site.about(Condition::Operator, "@prox"));
    };
    let (index, left) = near_operand(site.alloc, left, over, profile)?;
    let (other, right) = near_operand(site.alloc, right, over, profile)?;
    if index != other {
        return Err(site.refused(Condition::Combination));
    }
    Ok(Plan::Near(NearPlan {
        index,
        left,
        right,
        separation,
    }))
}

/// What the six parameters ask for, or 110 about the first that isn't supported.
#[tactic(auto, unfolding(crate::specs::PrivatePlanning::separation_read))]
fn separation_of(site: Site, parameters: &Parameters) -> Result<Separation, QueryFault>
    ensures { Gives (λ x. x) result
        (steps.separation_read site.place (parameters_value parameters.now)) }
{
    let condition = Condition::Operator;
    let text = parameters.exclusion.as_str();
    if text != "0" {
        return Err(site.about(condition, text));
    }
    let text = parameters.distance.as_str();
    let distance = kept(site, condition, Some(text), short_number(text))?;
    let text = parameters.ordered.as_str();
    let ordered = kept(site, condition, Some(text), ordering_of(text))?;
    let text = parameters.relation.as_str();
    let relation = kept(site, condition, Some(text), distance_relation_of(text))?;
    let text = parameters.which_code.as_str();
    if text != "k" && text != "known" {
        return Err(site.about(condition, text));
    }
    let text = parameters.unit_code.as_str();
    if text != "2" {
        return Err(site.about(condition, text));
    }
    Ok(Separation {
        distance,
        ordered,
        relation,
    })
}

/// Whether the words have to stand in the order of the query.
fn ordering_of(text: &str) -> Option<bool>
    ensures { result ≡ kept_text orderings text.now }
{
    match text {
        "0" => Some(false),
        "1" => Some(true),
        _ => None,
    }
}

/// The relation by its number.
fn distance_relation_of(text: &str) -> Option<DistanceRelation>
    ensures { result ≡ kept_text distance_relations text.now }
{
    match text {
        "1" => Some(DistanceRelation::Less),
        "2" => Some(DistanceRelation::LessOrEqual),
        "3" => Some(DistanceRelation::Equal),
        "4" => Some(DistanceRelation::GreaterOrEqual),
        "5" => Some(DistanceRelation::Greater),
        "6" => Some(DistanceRelation::NotEqual),
        _ => None,
    }
}

/// The index of an operand, and the pattern of its one word.
#[tactic(auto, unfolding(crate::specs::PrivatePlanning::word_near))]
fn near_operand(
    alloc: Global,
    leaf: &Leaf,
    over: Holding<'_>,
    profile: &Profile,
) -> Result<(u32, Pattern), QueryFault>
    ensures { (set : Option (List ℕ)) (outer : HeadValue)
        → holding_value over.entry ≡ holding_of set outer
        → Gives (λ x. x) result (steps.word_near profile.now record {
          place = leaf.now.place;
          held = holding_of set (heads outer (head_value leaf.now.head));
          text = string_bytes leaf.now.text;
        }) }
{
    let place = leaf.place;
    let site = Site { alloc, place };
    let text = leaf.text.as_str();
    let holding = over.within(&leaf.head);
    let (values, patterns) = taken_term(site, text, &holding, profile, Purpose::Near)?;
    let index = index_in(site, values.subject)?;
    let pattern = kept(site, Condition::Combination, None, only(patterns))?;
    Ok((index, pattern))
}

fn only(mut patterns: Vec<Pattern>) -> Option<Pattern>
    ensures { result ≡ one_of patterns.items }
{
    let pattern = patterns.pop()?;
    patterns.is_empty().then_some(pattern)
}
