//! What a register holds, and the tables that are its image: told of whole tables, and made anew from the kept records.
#![tactic(auto)]

mod checking;
mod checking_databases;
mod checking_records;
mod fronted;
mod names;
mod rebuilding;
mod rebuilding_records;

pub use checking::is_image;
pub use names::DbName;
pub use rebuilding::rebuild;
