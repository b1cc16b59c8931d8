//! What entries of leaves say: their postings.

ghost use Rattle.std.specs.Prelude.{◌≡◌, ◌++◌, List};
ghost use Rattle.zeb_leaves.specs.PrivateSaid.{SayAll, Says, SomeSaysNone};
ghost use Rattle.zeb_register.specs.Answers.{Answers, IfRowDamaged};
ghost use Rattle.zeb_register.specs.Readings.{SaysPart};

use std::alloc::Global;
use zeb_blocks::{Damaged, Posting, push_block};
use zeb_leaf::{Entry, Held};
use zeb_register::RowFault;

/// Puts the postings that an entry says behind the others.
fn push_said(postings: &mut Vec<Posting>, held: &Held) -> Result<(), RowFault>
    ensures { Answers (IfRowDamaged ((part : List _) → ¬ Says held.now part))
        (λ _. (part : List _) × Says held.now part
        × (postings.new.items ≡ postings.old.items ++ part)) result }
{
    match push_block(postings, held.block, held.bytes)? {
        Ok(records) if records == held.records => Ok(()),
        Ok(_) | Err(Damaged) => Err(RowFault::Damaged),
    }
}

/// The postings that an entry of a leaf says.
pub(crate) fn entry_said(alloc: Global, entry: &Entry) -> Result<Vec<Posting>, RowFault>
    ensures { Answers (IfRowDamaged ((part : List _) → ¬ SaysPart entry.now part))
        (λ list. SaysPart entry.now list.items) result }
{
    let held = Held {
        block: entry.block,
        records: entry.records,
        bytes: entry.bytes.as_slice(),
    };
    let mut postings = Vec::new(alloc);
    push_said(&mut postings, &held)?;
    Ok(postings)
}

/// The postings that entries say, one behind the other.
pub(crate) fn postings_said(alloc: Global, held: &[Held]) -> Result<Vec<Posting>, RowFault>
    ensures { Answers (IfRowDamaged (SomeSaysNone held.now))
        (λ list. SayAll held.now list.items) result }
{
    let mut postings = Vec::new(alloc);
    for one in held {
        push_said(&mut postings, one)?;
    }
    Ok(postings)
}
