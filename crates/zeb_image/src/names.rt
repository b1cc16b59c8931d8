//! Names of databases.

ghost use Rattle.std.specs.Prelude.{◌≡◌, ◌↔◌, IsSome, IfSome};
ghost use Rattle.zeb_image.specs.Names.{IsDatabaseName, is_name_byte};

use arrayvec::ArrayString;

/// The name of a database: 1 to 64 bytes of ASCII letters, digits, `-`, `_` and `.`. Names are compared byte by byte.
#[derive(Clone, Copy, Debug, PartialEq, Eq)]
pub struct DbName {
    text: ArrayString<64>,
    ghost named: { IsDatabaseName text.bytes },
}

/// An ASCII letter or digit, `-`, `_` or `.`.
fn may_stand_in_a_name(byte: u8) -> bool
    ensures { result ≡ is_name_byte byte }
{
    byte.is_ascii_alphanumeric() || byte == b'-' || byte == b'_' || byte == b'.'
}

impl DbName {
    ghost use Rattle.zeb_image.specs.NameOf.{name_bytes};

    /// The name that the text spells, or `None` where it spells none. Takes no memory.
    pub fn read(text: &str) -> Option<DbName>
        ensures found { IsSome result ↔ IsDatabaseName text.now }
        ensures same { IfSome result (λ name. name_bytes name ≡ text.now) }
    {
        if text.is_empty() || !text.bytes().all(may_stand_in_a_name) {
            return None;
        }
        let text = ArrayString::from(text).ok()?;
        Some(DbName { text })
    }

    /// The name's text.
    pub fn as_str(&self) -> &str
        ensures { result.now ≡ name_bytes self.now }
    {
        self.text.as_str()
    }
}
