//! A kept record, read again.

ghost use Rattle.std.specs.Prelude.{◌≡◌, ◌≢◌, None, Ok, Err, IfOk, IfErr, string_bytes};
ghost use Rattle.zeb_marc.specs.Records.{first_fault};
ghost use Rattle.zeb_change.specs.Occurs.{AreOccurrencesOf};
ghost use Rattle.zeb_change.specs.Stored.{IsKept};

use std::alloc::{AllocError, Global};
use zeb_extract::{IdentFault, identifier, occurrences};
use zeb_keys::Occurrence;
use zeb_marc::Marc;
use zeb_profile::Profile;
use zeb_register::RegFault;

/// Why a kept record isn't read again.
#[derive(Clone, Copy, Debug, PartialEq, Eq)]
pub enum KeptFault {
    /// It isn't one record of ISO 2709 with the identifier that it is kept under.
    Damaged,
    /// Memory ran out.
    Memory,
}

impl From<AllocError> for KeptFault {
    ghost use Rattle.zeb_change.specs.declared.kept.KeptFault.TheVariants.{Memory};

    ghost from_gives = { λ _ fault. fault ≡ Memory };

    fn from(_error: AllocError) -> KeptFault {
        KeptFault::Memory
    }
}

impl From<KeptFault> for RegFault {
    ghost use Rattle.zeb_change.specs.PrivateFaults.{kept_fault};

    ghost from_gives = { λ fault it. it ≡ kept_fault fault };

    fn from(fault: KeptFault) -> RegFault {
        match fault {
            KeptFault::Damaged => RegFault::Damaged,
            KeptFault::Memory => RegFault::Memory,
        }
    }
}

/// What becomes of a kept record by the identifier that was found in it, where it is kept under this one.
fn check_identifier(found: Result<String, IdentFault>, ident: &str) -> Result<(), KeptFault>
    ensures same { IfOk found (λ name. string_bytes name ≡ ident.now → result ≡ Ok tt) }
    ensures other { IfOk found (λ name. string_bytes name ≢ ident.now
        → result ≡ Err KeptFault.Damaged) }
    ensures fault { IfErr found (λ fault. fault ≢ IdentFault.Memory
        → result ≡ Err KeptFault.Damaged) }
    ensures memory { found ≡ Err IdentFault.Memory → result ≡ Err KeptFault.Memory }
{
    match found {
        Ok(found) if found.as_str() == ident => Ok(()),
        Err(IdentFault::Memory) => Err(KeptFault::Memory),
        _ => Err(KeptFault::Damaged),
    }
}

/// The occurrences of the record that is kept under this identifier, computed again from its bytes.
///
/// `Damaged` where these aren't one record of ISO 2709 in which the profile finds that identifier; `Memory` where memory ran out, and
/// never of bytes that are no record.
pub fn kept_occurrences(
    alloc: Global,
    profile: &Profile,
    ident: &str,
    bytes: &[u8],
) -> Result<Vec<Occurrence>, KeptFault>
    ensures sound { IfOk result (λ _.
        IsKept profile.now (record { sysno = 0; ident = ident.now; bytes = bytes.now })) }
    ensures found { IfOk result (λ found. AreOccurrencesOf profile.now bytes.now found.items) }
    ensures damaged { result ≡ Err KeptFault.Damaged →
        ¬ IsKept profile.now (record { sysno = 0; ident = ident.now; bytes = bytes.now }) }
    ensures unread { result ≡ Err KeptFault.Memory → first_fault bytes.now ≡ None }
{
    let Ok(marc) = Marc::read(bytes) else {
        return Err(KeptFault::Damaged);
    };
    check_identifier(identifier(alloc, &marc, profile), ident)?;
    Ok(occurrences(alloc, &marc, profile)?)
}
