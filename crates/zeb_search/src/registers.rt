//! Which index of which database a step of a search reads.

ghost use Rattle.std.specs.Prelude.{◌≡◌};

use zeb_keys::Register;
use zeb_register::{DatabaseId, RegisterOf};

/// An index of a database.
#[derive(Clone, Copy)]
pub(crate) struct IndexOf {
    pub db: DatabaseId,
    pub index: u32,
}

impl IndexOf {
    /// The index of this number in a database.
    pub(crate) fn new(db: DatabaseId, index: u32) -> Self
        ensures { result ≡ record { db = db; index = index } }
    {
        IndexOf { db, index }
    }

    /// One register of the index.
    pub(crate) fn register(self, register: Register) -> RegisterOf
        ensures { result ≡ record { db = self.db; index = self.index; register = register } }
    {
        RegisterOf {
            db: self.db,
            index: self.index,
            register,
        }
    }
}
