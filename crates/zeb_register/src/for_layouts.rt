//! What other crates need beside the public calls, above all those that write a `Layout`: values on their way into a row and out of it, whole
//! tables, queries, and the counts of work.

pub use crate::agreeing::{lists_beside, postings_and_dict_lack_rows};
pub use crate::belonging::{Ends, ends_in_blocks, is_listed, next_in_blocks};
pub use crate::checked_changes::check_changes;
pub use crate::dropping::database_drop_whole;
pub use crate::packed_agreeing::blocks_agree;
pub use crate::record_parts::postings_changed;
pub use crate::statements::inside::nothing_inside;
pub use crate::statements::keys::KeyOf;
pub use crate::statements::queries::look_up;
pub use crate::tallies::{counted, counts_are_numbers};
pub use crate::terms::text_above;
pub use crate::values::{read, read_bytes, read_number, stored};
