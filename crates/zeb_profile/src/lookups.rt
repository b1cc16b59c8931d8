//! A profile that was read, and what may be asked of it.

ghost use Rattle.std.specs.Prelude.{◌≡◌, length, Some, slice_get, option_copied};
ghost use Rattle.zeb_profile.specs.Indexes as indexes;
ghost use Rattle.zeb_profile.specs.Clauses.{canonical_text, IsProfile, GivesPlaced, profile_of, targets_left};

use crate::canonical::canonical;
use crate::indexes::{Indexes, position_of};
use crate::names::Name;
use crate::reading::{read_lines, settle};
use crate::resolved::{Line, has_pair, resolve, use_name};
use crate::unit_targets::Targets;
use crate::{ProfileFault, UnitPattern};
use std::alloc::Global;
use std::marker::Model;
use zeb_keys::Register;

/// An indexing profile: where the register is kept, where a record's identifier stands, and which units go into
/// which indexes. Contracts see it as the list of its directives.
#[derive(Debug, Drop)]
pub struct Profile {
    lines: Vec<Line>,
    names: Vec<Name>,
    identifier: UnitPattern,
    store: String,
    text: String,
}

impl Model for Profile {
    ghost use Rattle.std.specs.Prelude.{List};
    ghost use Rattle.zeb_profile.specs.declared.directives.Directive.{Directive};

    ghost Value = { List Directive };

    ghost use Rattle.std.specs.Prelude.{◌≡◌, ◌<◌, ◌^◌, ℕ, length, map, string_bytes, Some};
    ghost use Rattle.zeb_keys.specs.declared.registers.Register.{Register};
    ghost use Rattle.zeb_profile.specs.Indexes as indexes;
    ghost use Rattle.zeb_profile.specs.Canonical.{canonical_text};
    ghost use Rattle.zeb_profile.specs.Laws.{IsProfile};
    ghost use Rattle.zeb_profile.specs.Profiles.{targets_in};

    ghost view = { λ profile. map (λ line. line.directive) profile.lines.items };

    ghost invariant = { λ profile.
        let directives = map (λ line. line.directive) profile.lines.items in
        (profile.names.items ≡ indexes.index_names directives)
        × (length profile.names.items < 2 ^ 32)
        × (map {B = Directive × List (ℕ × Register)}
        (λ line. (line.directive, line.pairs.items)) profile.lines.items
        ≡ map {B = Directive × List (ℕ × Register)}
        (λ directive. (directive, map (indexes.pair_of profile.names.items) (targets_in directive)))
        directives)
        × (indexes.identifier_pattern directives ≡ Some profile.identifier)
        × (indexes.store_path directives ≡ Some (string_bytes profile.store))
        × (string_bytes profile.text ≡ canonical_text directives)
        × ∥ IsProfile directives ∥₁ };
}

impl Profile {
    /// Reads a profile's text. A fault is that of the first faulty line, lines counted from 1; of what all lines
    /// together lack, an unknown index has the line of its `att`, and a missing identifier or store, and then too many
    /// indexes, line 0. `Memory`, with line 0, comes where memory ran out.
    pub fn read(alloc: Global, text: &str) -> Result<Profile, ProfileFault>
        ensures { GivesPlaced (λ profile. profile) result (profile_of text.now) }
    {
        let placed = read_lines(alloc, text)?;
        let indexes = Indexes::of_lines(alloc, &placed)?;
        let settled = settle(alloc, &placed, &indexes)?;
        let identifier = settled.identifier;
        let store = String::from_str(alloc, settled.store)?;
        let text = canonical(alloc, &placed)?;
        let lines = resolve(alloc, placed, &indexes)?;
        Ok(Profile {
            lines,
            names: indexes.names,
            identifier,
            store,
            text,
        })
    }

    /// The number of the index with this name, ASCII letters compared without regard to their case; `None` where there is none.
    pub fn index_by_name(&self, name: &str) -> Option<u32>
        ensures { result ≡ indexes.index_by_name self.now name.now }
    {
        position_of(&self.names, name)
    }

    /// The number of the index that this use attribute is tied to; `None` where there is none.
    pub fn index_by_use(&self, number: u32) -> Option<u32>
        ensures { result ≡ indexes.index_by_use self.now number }
    {
        let name = use_name(&self.lines, number)?;
        position_of(&self.names, name.as_str())
    }

    /// The name of an index as the first line that has it spells it; `None` where there is none of this number.
    pub fn index_name(&self, index: u32) -> Option<&str>
        ensures { option_copied result ≡ slice_get (indexes.index_names self.now) index }
    {
        Some(self.names.get(index as usize)?.as_str())
    }

    /// How many indexes there are; they are numbered from 0.
    pub fn index_count(&self) -> u32
        ensures { result ≡ length (indexes.index_names self.now) }
    {
        self.names.len() as u32
    }

    /// Whether some line has this index and register as a target.
    pub fn has(&self, index: u32, register: Register) -> bool
        ensures { result ≡ indexes.has_pair self.now (index, register) }
    {
        has_pair(&self.lines, index, register)
    }

    /// Where a record's identifier stands.
    pub fn identifier_rule(&self) -> &UnitPattern
        ensures { indexes.identifier_pattern self.now ≡ Some result.now }
    {
        &self.identifier
    }

    /// The path of the register's file, without blanks at its ends.
    pub fn store_path(&self) -> &str
        ensures { indexes.store_path self.now ≡ Some result.now }
    {
        &self.store
    }

    /// The canonical text: each directive but `store` on a line of its own, with one space between words, registers
    /// written, names as their line spells them and numbers without leading zeros.
    pub fn text(&self) -> &str
        ensures { result.now ≡ canonical_text self.now }
    {
        &self.text
    }

    /// The targets of a unit with this tag and code: those of the first `melm` line that fits, and for a data field
    /// those of `all` that are not among them.
    pub fn targets(&self, tag: &[u8; 3], code: Option<u8>) -> Targets<'_>
        ensures { targets_left result ≡ indexes.unit_targets self.now tag.now code }
    {
        Targets::of_unit(&self.lines, tag, code)
    }

    /// A law: every profile is the directives of some text. Contracts see a profile as its directives; what is true of its
    /// fields is learnt where one of them is named.
    pub fn is_of_some_text(&self)
        ensures { ∥ IsProfile self.now ∥₁ }
    {
        let _ = &self.lines;
    }
}
