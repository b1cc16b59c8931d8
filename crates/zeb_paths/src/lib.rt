//! The paths that a user names: what stands there, the files below a folder, their bytes, and the register's store.
#![tactic(auto)]

mod causes;
mod disk;
mod laws;
mod looks;
mod opening;
mod paths;
mod shelf;
mod tally;
mod walk;

pub use causes::{Closed, PathCause, StoreCause};
pub use disk::{Disk, FileReader};
pub use laws::{
    a_told_file_is_given, a_walk_ends_behind_the_last_path, a_walk_stays_below_its_paths,
    a_walk_stops_at_no_told_file,
};
pub use paths::{Asked, OpenFailed, PathKind, Paths};
pub use shelf::{Shelf, ShelfReader, Shelved};
pub use tally::Tally;
pub use walk::{Walk, WalkFault};
