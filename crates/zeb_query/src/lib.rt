//! Queries in the Prefix Query Format (YAZ manual, "Prefix Query Format") with attributes of the set Bib-1
//! (ANSI/NISO Z39.50-2003, attribute set Bib-1): a text is one query or one diagnostic with its place, and a
//! query over an indexing profile is a plan or its first diagnostic.
//!
//! What these leave open is a rule of this project's own: how words are quoted and escaped, which diagnostic answers which
//! fault, at which place and in which order, the limits, which values go together, and that structure 107, a local number,
//! is the record's system number.
//!
//! Each call may also answer `QueryFault::Memory`, where memory ran out.
#![tactic(auto)]

mod attributes;
mod diagnostics;
mod digits;
mod faults;
mod grammar;
mod holding;
mod keywords;
mod planning;
mod plans;
mod proximity;
mod queries;
mod reading;
mod scanning;
mod terms;
mod values;
mod words;

pub use faults::QueryFault;
pub use planning::plan;
pub use plans::{
    DistanceRelation, NearPlan, Operator, PairPlan, Plan, Relation, ScanPlan, Separation, TermPlan,
};
pub use queries::{Attribute, Connective, Head, Leaf, Parameters, Query, Tree};
pub use reading::read_pqf;
pub use scanning::plan_scan;
