//! What statements are told of a key.

use crate::DatabaseId;
use zeb_keys::Key;

/// A key of a database.
#[derive(Clone, Copy, Debug)]
pub struct KeyOf<'a> {
    pub db: DatabaseId,
    pub key: &'a Key,
}
