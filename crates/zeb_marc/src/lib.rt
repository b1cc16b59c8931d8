//! ISO 2709, the exchange format of MARC 21 records: a record, its fields and units, and a stream of records.
#![tactic(auto)]

mod digits;
mod directory;
mod faults;
mod leader;
mod records;
mod sources;
mod stream;
mod tags;
mod units;

pub use directory::{Field, Fields};
pub use faults::MarcFault;
pub use records::Marc;
pub use sources::{Ask, FromRead, ReadFailed, Slice, Source, passed_on};
pub use stream::{RecordBuf, next_record};
pub use tags::{is_control_tag, is_tag};
pub use units::{Unit, Units};
