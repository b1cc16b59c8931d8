//! A text that is told again and again, each time from some place on.
ghost use Rattle.std.specs.Prelude.{◌≡◌, ◌+◌, ◌^◌, ◌<◌, ◌≤◌, ◌++◌, [], IsTrue, OnErr, OnOk, false, drop, length, take};

use std::alloc::{AllocError, Global};
use std::marker::Model;

/// So many bytes are copied at once.
const AT_ONCE: usize = 8;

/// So many bytes are kept behind a text at first, for those that are told of it next.
const ROOM: usize = 64;

/// The bytes of a text. Others are kept behind its end, so that the few bytes which a term has of its own are put there by one copy of a
/// length that is always the same, with no call.
#[derive(Debug, Drop)]
pub(crate) struct Text {
    kept: Vec<u8>,
    len: usize,
}

impl Model for Text {
    ghost use Rattle.std.specs.Prelude.{◌≤◌, ℕ, List, length, take};

    ghost Value = { List ℕ };

    ghost view = { λ text. take text.len text.kept.items };

    ghost invariant = { λ text. text.len ≤ length text.kept.items };
}

/// Copies eight bytes to the front of others, and says whether there are so many.
#[inline(always)]
fn copy_at_once(to: &mut [u8], from: &[u8]) -> bool
    ensures copied { IsTrue result → to.new ≡ take 8 from.now ++ drop 8 to.old }
    ensures stays { result ≡ false → to.new ≡ to.old }
{
    match (
        to.first_chunk_mut::<AT_ONCE>(),
        from.first_chunk::<AT_ONCE>(),
    ) {
        (Some(to), Some(from)) => {
            *to = *from;
            true
        }
        _ => false,
    }
}

impl Text {
    /// No text yet. Nothing is allocated.
    pub(crate) fn new(alloc: Global) -> Text
        ensures { result ≡ [] }
    {
        Text {
            kept: Vec::new(alloc),
            len: 0,
        }
    }

    /// The text, lent.
    #[inline(always)]
    pub(crate) fn as_slice(&self) -> &[u8]
        ensures { result.now ≡ self.now }
    {
        &self.kept.as_slice()[..self.len]
    }

    /// Cuts the text at the place, and puts others behind. Where memory ran out, it stays as it was.
    #[inline(never)]
    pub(crate) fn set_behind(&mut self, place: usize, back: &[u8]) -> Result<(), AllocError>
        requires place { place ≤ length self.old }
        requires fits { place + length back.now < 2 ^ 64 }
        ensures ok { OnOk result (self.new ≡ take place self.old ++ back.now) }
        ensures err { OnErr result (self.new ≡ self.old) }
    {
        let end = place + back.len();
        self.kept.resize(end.saturating_add(ROOM), 0)?;
        self.kept.as_mut_slice()[place..end].copy_from_slice(back);
        self.len = end;
        Ok(())
    }

    /// As [`Text::set_behind`], where `onward` begins with these bytes: then eight bytes of it are copied at once, if there are so many and room
    /// for them. What is too much of them lies behind the end.
    #[inline(always)]
    pub(crate) fn set_front(
        &mut self,
        place: usize,
        back: &[u8],
        onward: &[u8],
    ) -> Result<(), AllocError>
        requires place { place ≤ length self.old }
        requires fits { place + length back.now < 2 ^ 64 }
        requires begins { take (length back.now) onward.now ≡ back.now }
        ensures ok { OnOk result (self.new ≡ take place self.old ++ back.now) }
        ensures err { OnErr result (self.new ≡ self.old) }
    {
        let (_, behind) = self.kept.as_mut_slice().split_at_mut(place);
        if back.len() <= AT_ONCE && copy_at_once(behind, onward) {
            self.len = place + back.len();
            return Ok(());
        }
        self.set_behind(place, back)
    }
}
