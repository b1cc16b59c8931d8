//! The targets of a unit, one after the other.

ghost use Rattle.std.specs.Prelude.{◌≡◌, ◌∷◌, [], IfSome, IfNone};
ghost use Rattle.zeb_profile.specs.Clauses.{further_pairs, targets_left, unit_pairs};
ghost use Rattle.std.specs.Iterator.{item_count, YieldsFirst};

use crate::resolved::{Line, Pair, all_pairs, is_among, melm_pairs};
use zeb_keys::Register;
use zeb_marc::is_control_tag;

/// The targets of a unit, each pair of an index number and a register once.
#[derive(Drop)]
pub struct Targets<'a> {
    /// Those of the `melm` line, and which of them are left.
    first: &'a [Pair],
    left: &'a [Pair],
    /// Those of the `all` line that are left.
    all: &'a [Pair],
}

impl<'a> Targets<'a> {
    /// Those of the first `melm` line that fits a unit, and for a data field those of the `all` line that are not among them.
    pub(crate) fn of_unit(lines: &'a [Line], tag: &[u8; 3], code: Option<u8>) -> Targets<'a>
        ensures { targets_left result ≡ unit_pairs tag.now code lines.now }
    {
        let first = melm_pairs(lines, tag, code);
        let all = if is_control_tag(tag) {
            &[]
        } else {
            all_pairs(lines)
        };
        Targets {
            first,
            left: first,
            all,
        }
    }
}

impl<'a> Iterator for Targets<'a> {
    type Item = (u32, Register);

    ghost next_gives = { YieldsFirst targets_left };

    ghost remaining = { item_count targets_left };

    fn next(&mut self) -> Option<Pair> {
        match self.left.split_first() {
            Some((pair, others)) => {
                self.left = others;
                Some(*pair)
            }
            None => {
                let (pair, others) = next_further(self.first, self.all)?;
                self.all = others;
                Some(pair)
            }
        }
    }
}

/// The first of all pairs that is not among the first ones, and the pairs behind it.
fn next_further<'a>(first: &[Pair], all: &'a [Pair]) -> Option<(Pair, &'a [Pair])>
    ensures some { IfSome result (λ next.
        further_pairs first.now all.now ≡ next.0 ∷ further_pairs first.now next.1.now) }
    ensures none { IfNone result (further_pairs first.now all.now ≡ []) }
{
    for (place, (index, register)) in all.iter().enumerate() {
        if !is_among(first, *index, *register) {
            return Some(((*index, *register), &all[place + 1..]));
        }
    }
    None
}
