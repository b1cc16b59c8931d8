//! What no later line of a profile may repeat.

ghost use Rattle.std.specs.Prelude.{[], OnOk};
ghost use Rattle.zeb_profile.specs.Clauses.{Gives, unless};
ghost use Rattle.zeb_profile.specs.PrivateRepeats.{NotesAlso, NotesClashes, noted_clash};

use crate::ProfileFaultKind;
use crate::directives::Directive;
use std::alloc::Global;
use std::collections::BTreeSet;

/// What the lines read so far have that no later line may repeat. A line is asked against this and not against each of
/// them, so that the time for a profile grows little faster than the profile.
#[derive(Drop)]
pub(crate) struct Repeats {
    has_store: bool,
    has_identifier: bool,
    has_all: bool,
    /// The numbers of the use attributes.
    uses: BTreeSet<u32>,
}

impl Repeats {
    pub(crate) fn new(alloc: Global) -> Repeats
        ensures { NotesClashes result [] }
    {
        Repeats {
            has_store: false,
            has_identifier: false,
            has_all: false,
            uses: BTreeSet::new(alloc),
        }
    }

    /// Notes a directive beside the earlier ones; the fault where it repeats what one of them has.
    pub(crate) fn note(&mut self, directive: &Directive) -> Result<(), ProfileFaultKind>
        ensures gives { Gives (λ _. directive.now) result
            (unless (noted_clash self.old directive.now) directive.now) }
        ensures notes { OnOk result (NotesAlso directive.now self.old self.new) }
    {
        match directive {
            Directive::Store(_) if self.has_store => return Err(ProfileFaultKind::TwoStores),
            Directive::Store(_) => self.has_store = true,
            Directive::Identifier(_) if self.has_identifier => {
                return Err(ProfileFaultKind::TwoIdentifiers);
            }
            Directive::Identifier(_) => self.has_identifier = true,
            Directive::Att(number, _) => {
                if !self.uses.insert(*number)? {
                    return Err(ProfileFaultKind::DuplicateUse);
                }
            }
            Directive::All(_) if self.has_all => return Err(ProfileFaultKind::TwoAlls),
            Directive::All(_) => self.has_all = true,
            Directive::Melm(_, _) => {}
        }
        Ok(())
    }
}
