//! The indexes of a profile: their names by number, and the number of a name.

ghost use Rattle.std.specs.Prelude.{◌≡◌, ◌<◌, ◌^◌, length, IfOk, OnOk, false, true, position};
ghost use Rattle.zeb_profile.specs.Clauses.{list_any, numbered, AreIndexes, NotesSpelling, NumbersNames, spelled, directives_in, same_name};

use crate::directives::{Directive, Placed};
use crate::names::Name;
use std::alloc::{AllocError, Global};
use std::collections::BTreeMap;

/// The indexes of a profile: their names by number, and at each name's key its number.
#[derive(Drop)]
pub(crate) struct Indexes {
    pub names: Vec<Name>,
    pub numbers: BTreeMap<String, usize>,
}

impl Indexes {
    /// The indexes that lines have as targets. Names are looked up by their keys, so that the time grows little faster than
    /// the profile.
    pub(crate) fn of_lines(alloc: Global, placed: &[Placed]) -> Result<Indexes, AllocError>
        ensures { IfOk result (λ indexes. AreIndexes indexes (directives_in placed.now)) }
    {
        let mut indexes = Indexes {
            names: Vec::new(alloc),
            numbers: BTreeMap::new(alloc),
        };
        let mut tied: BTreeMap<String, &Name> = BTreeMap::new(alloc);
        for line in placed {
            if let Directive::Att(_, name) = &line.directive {
                note_spelling(alloc, &mut tied, name)?;
            }
            for target in line.directive.targets() {
                indexes.add(alloc, &tied, &target.name)?;
            }
        }
        Ok(indexes)
    }

    /// Gives a name the next number, unless it has one: as an `att` line up to here spells it, or else as it stands.
    fn add<'a>(
        &mut self,
        alloc: Global,
        tied: &BTreeMap<String, &'a Name>,
        name: &'a Name,
    ) -> Result<(), AllocError>
        requires numbers { NumbersNames self.old.numbers self.old.names.items }
        requires spelling { list_any (same_name name.now) self.old.names.items ≡ false
            → same_name (spelled tied.now name.now) name.now ≡ true }
        ensures names { OnOk result (self.new.names.items
            ≡ numbered (spelled tied.now) self.old.names.items name.now) }
        ensures numbers { OnOk result (NumbersNames self.new.numbers self.new.names.items) }
    {
        let key = name.key(alloc)?;
        if self.numbers.contains_key(key.as_str()) {
            return Ok(());
        }
        let spelling = match tied.get(key.as_str()) {
            Some(spelling) => *spelling,
            None => name,
        };
        self.numbers.insert(key, self.names.len())?;
        self.names.push(spelling.copy(alloc)?)?;
        Ok(())
    }
}

/// Notes a name at its key, unless one is noted there.
fn note_spelling<'a>(
    alloc: Global,
    spellings: &mut BTreeMap<String, &'a Name>,
    name: &'a Name,
) -> Result<(), AllocError>
    ensures { OnOk result (NotesSpelling spellings.old spellings.new name.now) }
{
    let key = name.key(alloc)?;
    if !spellings.contains_key(key.as_str()) {
        spellings.insert(key, name)?;
    }
    Ok(())
}

/// The number of the first name that is this one.
pub(crate) fn position_of(names: &[Name], name: &str) -> Option<u32>
    requires { length names.now < 2 ^ 32 }
    ensures { result ≡ position (same_name name.now) names.now }
{
    for (index, known) in names.iter().enumerate() {
        if known.is_spelled(name) {
            return Some(index as u32);
        }
    }
    None
}
