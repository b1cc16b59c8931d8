//! The plan of a query, or its first diagnostic.
ghost use Rattle.std.specs.Prelude.{◌≡◌, List, ℕ, Option, ◌<◌, ◌^◌, IfOk, string_bytes};
ghost use Rattle.zeb_query.specs.Clauses.{HeadValue, tree_value, query_value, head_value, heads, many, Gives, IsDiagnostic, holding_value};
ghost use Rattle.zeb_query.specs.Attributes as attributes;
ghost use Rattle.zeb_query.specs.Plans as plans;
ghost use Rattle.zeb_query.specs.PrivatePlanning as steps;

use crate::attributes::{Asked, Completeness, Structure};
use crate::diagnostics::{Condition, Site};
use crate::digits::{long_number, short_number};
use crate::holding::Holding;
use crate::proximity::plan_near;
use crate::terms::{kept, taken_term};
use crate::values::{Purpose, Subject, Values};
use crate::{
    Connective, Leaf, Operator, PairPlan, Plan, Query, QueryFault, Relation, TermPlan, Tree,
};
use std::alloc::{AllocError, Global};
use zeb_profile::Profile;
use zeb_text::{Pattern, join, join_patterns, words};

/// The plan of a query over a profile (ANSI/NISO Z39.50-2003, attribute set Bib-1).
///
/// The checks of its operators, named sets and terms stand in the order of the text, and the first that applies is answered, with
/// the place of the operator's word, of `@set` or of the term. `specs/Checks.antt` has them as tables, each with its number.
pub fn plan(alloc: Global, query: &Query, profile: &Profile) -> Result<Plan, QueryFault>
    ensures planned { Gives plans.plan_value result
        (plans.plan_of profile.now (query_value query.now)) }
    ensures numbers { IfOk result (λ plan. plans.HasSmallNumbers (plans.plan_value plan)) }
{
    plan_tree(alloc, &query.tree, Holding::over(query), profile)
}

/// The plan of a tree over which these attributes hold.
fn plan_tree(
    alloc: Global,
    tree: &Tree,
    over: Holding<'_>,
    profile: &Profile,
) -> Result<Plan, QueryFault>
    ensures { (set : Option (List ℕ)) (outer : HeadValue)
        → holding_value over.entry ≡ attributes.holding_of set outer
        → Gives plans.plan_value result
        (steps.tree_plan profile.now set outer (tree_value tree.now)) }
{
    match tree {
        Tree::Term(leaf) => Ok(Plan::Term(plan_leaf(alloc, leaf, over, profile)?)),
        Tree::Named(leaf) => Err(named_set(alloc, leaf)),
        Tree::Pair {
            place,
            head,
            connective,
            left,
            right,
        } => {
            let holding = over.within(head);
            match connective {
                Connective::Boolean(operator) => {
                    let left = plan_tree(alloc, left, holding, profile)?;
                    let right = plan_tree(alloc, right, holding, profile)?;
                    Ok(pair_plan(alloc, *operator, left, right)?)
                }
                Connective::Proximity(parameters) => {
                    let place = *place;
                    let site = Site { alloc, place };
                    plan_near(site, parameters, left, right, holding, profile)
                }
            }
        }
    }
}

pub(crate) fn named_set(alloc: Global, leaf: &Leaf) -> QueryFault
    ensures { IsDiagnostic result 18 leaf.now.place (string_bytes leaf.now.text) }
{
    let place = leaf.place;
    Site { alloc, place }.about(Condition::ResultSet, leaf.text.as_str())
}

fn pair_plan(alloc: Global, operator: Operator, left: Plan, right: Plan) -> Result<Plan, AllocError>
    ensures { IfOk result (λ plan. plans.plan_value plan
        ≡ plans.PairOf operator (plans.plan_value left) (plans.plan_value right)) }
{
    let pair = PairPlan {
        operator,
        left,
        right,
    };
    Ok(Plan::Pair(Box::new(alloc, pair)?))
}

#[tactic(auto, unfolding(crate::specs::PrivatePlanning::leaf_plan))]
fn plan_leaf(
    alloc: Global,
    leaf: &Leaf,
    over: Holding<'_>,
    profile: &Profile,
) -> Result<TermPlan, QueryFault>
    ensures { (set : Option (List ℕ)) (outer : HeadValue)
        → holding_value over.entry ≡ attributes.holding_of set outer
        → Gives plans.term_plan_value result (steps.leaf_plan profile.now
        (attributes.holding_of set (heads outer (head_value leaf.now.head)))
        leaf.now.place (string_bytes leaf.now.text)) }
{
    let place = leaf.place;
    let site = Site { alloc, place };
    let text = leaf.text.as_str();
    let holding = over.within(&leaf.head);
    let (values, patterns) = taken_term(site, text, &holding, profile, Purpose::Find)?;
    let Subject::Entries { index, structure } = values.subject else {
        let number = kept(site, Condition::TermValue, Some(text), short_number(text))?;
        return Ok(TermPlan::RecordNumber(number));
    };
    let register = values.register();
    match values.relation {
        Asked::Always => Ok(TermPlan::Always { index, register }),
        Asked::Compared(relation) => {
            compared(site, text, &values, index, structure, relation, patterns)
        }
    }
}

/// The number that a term spells in 1 to 18 digits; where it spells none, 126 about the term.
pub(crate) fn number_in(site: Site, text: &str) -> Result<u64, QueryFault>
    ensures gives { Gives (λ x. x) result (steps.number_in many site.place text.now) }
    ensures small { IfOk result (λ number. number < 10 ^ many) }
{
    kept(site, Condition::TermValue, Some(text), long_number(text))
}

/// The plan of a term that is compared with the entries of an index.
#[tactic(auto, unfolding(crate::specs::PrivatePlanning::compared_plan))]
fn compared(
    site: Site,
    text: &str,
    values: &Values,
    index: u32,
    structure: Structure,
    relation: Relation,
    patterns: Vec<Pattern>,
) -> Result<TermPlan, QueryFault>
    ensures { Gives plans.term_plan_value result (steps.compared_plan site.place text.now values.now
        index structure patterns.items relation) }
{
    if structure == Structure::Numeric {
        let number = number_in(site, text)?;
        return Ok(TermPlan::Number {
            index,
            relation,
            number,
        });
    }
    if relation == Relation::Equal {
        return Ok(matching(site.alloc, values, index, structure, patterns)?);
    }
    Ok(ordered(site.alloc, text, values, index, relation)?)
}

/// The plan of a term whose words are compared by an order.
fn ordered(
    alloc: Global,
    text: &str,
    values: &Values,
    index: u32,
    relation: Relation,
) -> Result<TermPlan, AllocError>
    ensures { IfOk result (λ plan. plans.term_plan_value plan
        ≡ steps.ordered_asked values.now index text.now relation) }
{
    let register = values.register();
    let words = words(alloc, text)?;
    if words.is_empty() {
        return Ok(TermPlan::NoWords { index, register });
    }
    let start = join(alloc, &words)?;
    Ok(TermPlan::Ordered {
        index,
        register,
        relation,
        start,
    })
}

/// The plan of a term whose words are compared by equality.
fn matching(
    alloc: Global,
    values: &Values,
    index: u32,
    structure: Structure,
    patterns: Vec<Pattern>,
) -> Result<TermPlan, AllocError>
    ensures { IfOk result (λ plan. plans.term_plan_value plan
        ≡ plans.matched_asked values.now index structure patterns.items) }
{
    if patterns.is_empty() {
        let register = values.register();
        return Ok(TermPlan::NoWords { index, register });
    }
    match values.completeness {
        Completeness::Complete => {
            let pattern = join_patterns(alloc, &patterns)?;
            Ok(TermPlan::Complete { index, pattern })
        }
        Completeness::Incomplete => match structure {
            Structure::WordList => Ok(TermPlan::AllWords { index, patterns }),
            Structure::FreeForm => Ok(TermPlan::AnyWord { index, patterns }),
            Structure::Phrase | Structure::Numeric => Ok(TermPlan::Phrase {
                index,
                patterns,
                first: values.is_first(),
            }),
        },
    }
}
