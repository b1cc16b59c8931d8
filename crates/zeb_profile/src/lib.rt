//! The indexing profile: the text that says which subfields of a record go into which index
//! (Zebra manual, "The Abstract Syntax (.abs) Files", `melm` and `all`; "The Attribute Set (.att) Files", `att`).
//!
//! A profile is read line by line, and [`Profile`] answers what its directives say of indexes and of units.
#![tactic(auto)]

mod canonical;
mod directives;
mod faults;
mod indexes;
mod lines;
mod lookups;
mod names;
mod patterns;
mod reading;
mod repeats;
mod resolved;
mod unit_targets;

pub use faults::{ProfileFault, ProfileFaultKind};
pub use lookups::Profile;
pub use patterns::UnitPattern;
pub use unit_targets::Targets;
