//! The lines of a profile with their targets resolved: each index by its number.

ghost use Rattle.std.specs.Prelude.{◌≡◌, ◌<◌, ◌^◌, length, map, IfOk, true, All, option_copied};
ghost use Rattle.zeb_profile.specs.Clauses.{list_any, pair_of as pair_in, same_name, same_pair, use_name as name_of_use, AreIndexes, NumbersNames, any_pair, directives_on, first_pairs, is_all, is_melm_for, line_value, resolved, directives_in};

use crate::directives::{Directive, Placed, Target};
use crate::indexes::Indexes;
use crate::names::Name;
use std::alloc::{AllocError, Global};
use zeb_keys::Register;

/// A target: an index by its number, and a register.
pub(crate) type Pair = (u32, Register);

/// A directive, and the pairs that are its targets.
#[derive(Debug, Drop)]
pub struct Line {
    pub directive: Directive,
    pub pairs: Vec<Pair>,
}

/// Each line with its targets resolved. An index is looked up by the key of its name, so that the time grows little
/// faster than the profile.
pub(crate) fn resolve(
    alloc: Global,
    placed: Vec<Placed>,
    indexes: &Indexes,
) -> Result<Vec<Line>, AllocError>
    requires few { length indexes.now.names.items < 2 ^ 32 }
    requires indexes { AreIndexes indexes.now (directives_in placed.items) }
    ensures { IfOk result
        (λ lines. map line_value lines.items
        ≡ map (resolved indexes.now.names.items) (directives_in placed.items)) }
{
    let mut lines: Vec<Line> = Vec::new(alloc);
    for line in placed {
        let directive = line.directive;
        let pairs = pairs_of(alloc, indexes, directive.targets())?;
        lines.push(Line { directive, pairs })?;
    }
    Ok(lines)
}

/// The pairs of a line's targets, each of whose names has a number.
fn pairs_of(alloc: Global, indexes: &Indexes, targets: &[Target]) -> Result<Vec<Pair>, AllocError>
    requires few { length indexes.now.names.items < 2 ^ 32 }
    requires numbers { NumbersNames indexes.now.numbers indexes.now.names.items }
    requires known { All
        (λ target. list_any (same_name target.name) indexes.now.names.items ≡ true) targets.now }
    ensures { IfOk result
        (λ pairs. pairs.items ≡ map (pair_in indexes.now.names.items) targets.now) }
{
    let mut pairs: Vec<Pair> = Vec::new(alloc);
    for target in targets {
        let key = target.name.key(alloc)?;
        if let Some(number) = indexes.numbers.get(key.as_str()) {
            pairs.push((*number as u32, target.register))?;
        }
    }
    Ok(pairs)
}

/// The targets of the first `melm` line that fits a unit.
pub(crate) fn melm_pairs<'a>(lines: &'a [Line], tag: &[u8; 3], code: Option<u8>) -> &'a [Pair]
    ensures { result.now ≡ first_pairs (is_melm_for tag.now code) lines.now }
{
    for line in lines {
        if line.directive.is_melm_for(tag, code) {
            return &line.pairs;
        }
    }
    &[]
}

pub(crate) fn all_pairs(lines: &[Line]) -> &[Pair]
    ensures { result.now ≡ first_pairs is_all lines.now }
{
    for line in lines {
        if line.directive.is_all() {
            return &line.pairs;
        }
    }
    &[]
}

pub(crate) fn use_name(lines: &[Line], number: u32) -> Option<&Name>
    ensures { option_copied result ≡ name_of_use number (directives_on lines.now) }
{
    for line in lines {
        let name = line.directive.tied_to(number);
        if name.is_some() {
            return name;
        }
    }
    None
}

pub(crate) fn has_pair(lines: &[Line], index: u32, register: Register) -> bool
    ensures { result ≡ any_pair (index, register) lines.now }
{
    lines
        .iter()
        .any(|line| is_among(&line.pairs, index, register))
}

pub(crate) fn is_among(pairs: &[Pair], index: u32, register: Register) -> bool
    ensures { result ≡ list_any (same_pair (index, register)) pairs.now }
{
    pairs
        .iter()
        .any(|pair| pair.0 == index && pair.1 == register)
}
