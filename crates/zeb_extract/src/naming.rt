//! The identifier of a record.
ghost use Rattle.std.specs.Prelude.{◌≡◌, ◌≢◌, Some, IfOk, IfErr, string_bytes};
ghost use Rattle.zeb_marc.specs.Contents.{units_of};
ghost use Rattle.zeb_extract.specs.declared.naming.IdentFault.TheVariants.{Memory};
ghost use Rattle.zeb_extract.specs.Identifier.{has_control, identifier_in, identifier_of, is_bad, without_spaces};
ghost use Rattle.zeb_extract.specs.Names.{fault_name};

use std::alloc::{AllocError, Global};
use std::error::Error;
use std::fmt;
use zeb_marc::Marc;
use zeb_profile::Profile;

/// The most bytes of UTF-8 that an identifier may have.
const GREATEST_LENGTH: usize = 255;

/// Why a record has no identifier, or that memory ran out.
#[derive(Clone, Copy, Debug, PartialEq, Eq)]
pub enum IdentFault {
    /// No unit fits the profile's identifier rule, or the first one that does has no text but U+0020.
    NoIdentifier,
    /// The identifier would have more than 255 bytes, or a control character (General_Category Cc).
    BadIdentifier,
    /// Memory was refused.
    Memory,
}

impl fmt::Display for IdentFault {
    ghost output = { λ fault. Some (fault_name fault) };

    fn fmt<W: fmt::Write>(&self, f: &mut fmt::Formatter<W>) -> fmt::Result {
        f.write_str(match self {
            IdentFault::NoIdentifier => "NoIdentifier",
            IdentFault::BadIdentifier => "BadIdentifier",
            IdentFault::Memory => "Memory",
        })
    }
}

impl Error for IdentFault {}

impl From<AllocError> for IdentFault {
    ghost from_gives = { λ _ fault. fault ≡ Memory };

    fn from(_: AllocError) -> IdentFault {
        IdentFault::Memory
    }
}

/// The identifier of a record: the text of the first unit that fits the profile's identifier rule, without U+0020 at
/// its ends. Bytes that are no UTF-8 are read as U+FFFD (Unicode, section 3.9, best practice).
///
/// `NoIdentifier` comes where no unit fits or nothing is left of the first one's text, also where a later unit would
/// have text; `BadIdentifier` where more than 255 bytes of UTF-8 are left or a control character is among them. `Memory` says
/// that memory was refused; that it comes there alone is tested and not proved.
pub fn identifier(alloc: Global, marc: &Marc<'_>, profile: &Profile) -> Result<String, IdentFault>
    ensures ok { IfOk result
        (λ name. identifier_of profile.now (units_of marc.now) ≡ Ok (string_bytes name)) }
    ensures err { IfErr result (λ fault. (fault ≢ IdentFault.Memory) →
        identifier_of profile.now (units_of marc.now) ≡ Err fault) }
{
    let rule = profile.identifier_rule();
    for unit in marc.units() {
        if rule.fits(&unit.tag, unit.code) {
            return identifier_in(alloc, unit.bytes);
        }
    }
    Err(IdentFault::NoIdentifier)
}

fn identifier_in(alloc: Global, bytes: &[u8]) -> Result<String, IdentFault>
    ensures ok { IfOk result (λ name. identifier_in bytes.now ≡ Ok (string_bytes name)) }
    ensures err { IfErr result
        (λ fault. (fault ≢ IdentFault.Memory) → identifier_in bytes.now ≡ Err fault) }
{
    let text = String::from_utf8_lossy(alloc, bytes)?;
    let name = without_spaces(text.as_str());
    if name.is_empty() {
        return Err(IdentFault::NoIdentifier);
    }
    if is_bad(name) {
        return Err(IdentFault::BadIdentifier);
    }
    Ok(String::from_str(alloc, name)?)
}

/// Whether the text is no identifier: it is too long or has a control character.
fn is_bad(text: &str) -> bool
    ensures { result ≡ is_bad text.now }
{
    text.len() > GREATEST_LENGTH || has_control(text)
}

/// Whether the text has a character of General_Category Cc.
fn has_control(text: &str) -> bool
    ensures { result ≡ has_control text.now }
{
    text.chars().any(|c| c.is_control())
}

/// The text without U+0020 at its ends.
fn without_spaces(text: &str) -> &str
    ensures { result.now ≡ without_spaces text.now }
{
    text.trim_start_matches(' ').trim_end_matches(' ')
}
