//! The three numbers by which a posting is told from the one before it.
ghost use Rattle.std.specs.Prelude.{◌≡◌, ◌≢◌, ◌++◌, ℕ, List, MatchOption, OnErr, OnOk, SomeIff};

use crate::numbers::write_number;
use crate::postings::Posting;
use std::alloc::AllocError;

/// How far a posting is above the one before it: the gap of the system number; the unit, as its gap where the system number is
/// the same; the place, as its gap where the unit too is the same. Each number is 0 to 2^64 - 1. This coding is the project's own.
#[derive(Clone, Copy, PartialEq, Eq)]
pub(crate) struct Gaps {
    pub(crate) sysno: u64,
    pub(crate) seq: u64,
    pub(crate) pos: u64,
}

impl Gaps {
    ghost use Rattle.zeb_blocks.specs.Blocks.{bytes_of, gaps_of};
    ghost use Rattle.zeb_blocks.specs.Left.{Follows, posting_after};
    ghost use Rattle.zeb_blocks.specs.PrivateLeft.{Fits};

    /// The gaps of a posting that is above another.
    pub(crate) fn between(before: Posting, posting: Posting) -> Gaps
        requires { Follows before posting }
        ensures { result ≡ gaps_of before posting }
    {
        let (sysno, seq, pos) = if posting.sysno != before.sysno {
            (posting.sysno - before.sysno, posting.seq, posting.pos)
        } else if posting.seq != before.seq {
            (0, posting.seq - before.seq, posting.pos)
        } else {
            (0, 0, posting.pos - before.pos)
        };
        Gaps { sysno, seq, pos }
    }

    /// The posting that is as far above another as these gaps say; `None` where one of its numbers doesn't fit 64 bits.
    fn added_to(self, before: Posting) -> Option<Posting>
        ensures { SomeIff result (Fits (posting_after before self)) (posting_after before self) }
    {
        let (sysno, seq, pos) = if self.sysno != 0 {
            (before.sysno.checked_add(self.sysno)?, self.seq, self.pos)
        } else if self.seq != 0 {
            (before.sysno, before.seq.checked_add(self.seq)?, self.pos)
        } else {
            (before.sysno, before.seq, before.pos.checked_add(self.pos)?)
        };
        Some(Posting { sysno, seq, pos })
    }

    /// The numbered posting that has these gaps from another, which may be the start of a block; `None` where there is none.
    pub(crate) fn after(self, before: Posting) -> Option<Posting>
        ensures { MatchOption result ((p : Posting) → Follows before p → gaps_of before p ≢ self)
            (λ p. Follows before p × (gaps_of before p ≡ self)) }
    {
        let posting = self.added_to(before)?;
        let is_numbered = posting.sysno != 0 && posting.seq != 0 && self.pos != 0;
        is_numbered.then_some(posting)
    }

    /// Puts the bytes of the three numbers at the end. Where memory ran out, a part of them may have been put there.
    pub(crate) fn write(self, out: &mut Vec<u8>) -> Result<(), AllocError>
        ensures ok { OnOk result (out.new.items ≡ out.old.items ++ bytes_of self) }
        ensures err { OnErr result ((part : List ℕ) × (out.new.items ≡ out.old.items ++ part)) }
    {
        write_number(out, self.sysno)?;
        write_number(out, self.seq)?;
        write_number(out, self.pos)
    }
}
