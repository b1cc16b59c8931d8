//! Reading a profile line by line, and what its lines lack together.

ghost use Rattle.std.specs.Prelude.{◌≡◌, map, IfOk, IfErr, option_map, find, option_copied};
ghost use Rattle.zeb_profile.specs.Clauses.{lines as lines_of, identifier_pattern as identifier_in, store_path as path_in, AreIndexes, says_something as tells, FailsPlaced, GivesPlaced, Gives, directives_in, placed_lines, ties_unknown as ties_unknown_index, lack_of, unless, Settles, NotesAlso, directive_beside};

use crate::directives::{Directive, Placed};
use crate::indexes::Indexes;
use crate::lines::trim;
use crate::repeats::Repeats;
use crate::{ProfileFault, ProfileFaultKind, UnitPattern};
use std::alloc::{AllocError, Global};

/// The directives of a text with their lines, or the fault of the first faulty line. What all lines together lack is
/// not asked.
pub(crate) fn read_lines(alloc: Global, text: &str) -> Result<Vec<Placed>, ProfileFault>
    ensures { GivesPlaced (λ placed. placed.items) result (placed_lines text.now) }
{
    let lines = split_lines(alloc, text)?;
    let mut placed: Vec<Placed> = Vec::new(alloc);
    let mut repeats = Repeats::new(alloc);
    for (index, line) in lines.iter().enumerate() {
        let content = trim(line);
        if says_something(content) {
            let line = index as u64 + 1;
            match read_line(alloc, &mut repeats, content) {
                Err(kind) => return Err(ProfileFault::at_line(line, kind)),
                Ok(directive) => {
                    placed.push(Placed { line, directive })?;
                }
            }
        }
    }
    Ok(placed)
}

fn split_lines(alloc: Global, text: &str) -> Result<Vec<&str>, AllocError>
    ensures { IfOk result (λ parts. map (λ part. part.now) parts.items ≡ lines_of text.now) }
{
    text.lines().collect(alloc)
}

/// Whether a line without the blanks at its ends is a directive: it isn't empty and no comment.
fn says_something(content: &str) -> bool
    ensures { result ≡ tells content.now }
{
    !(content.is_empty() || content.starts_with('#'))
}

/// Reads a line behind the earlier ones, and notes what no later line may repeat.
fn read_line(
    alloc: Global,
    repeats: &mut Repeats,
    line: &str,
) -> Result<Directive, ProfileFaultKind>
    ensures gives { Gives (λ directive. directive) result (directive_beside repeats.old line.now) }
    ensures notes { IfOk result (λ directive. NotesAlso directive repeats.old repeats.new) }
{
    let directive = Directive::read(alloc, line)?;
    repeats.note(&directive)?;
    Ok(directive)
}

fn identifier_pattern(placed: &[Placed]) -> Option<&UnitPattern>
    ensures { option_copied result ≡ identifier_in (directives_in placed.now) }
{
    for line in placed {
        let pattern = line.directive.identifier();
        if pattern.is_some() {
            return pattern;
        }
    }
    None
}

fn store_path(placed: &[Placed]) -> Option<&str>
    ensures { option_copied result ≡ path_in (directives_in placed.now) }
{
    for line in placed {
        let path = line.directive.store();
        if path.is_some() {
            return path;
        }
    }
    None
}

/// What each profile has once.
#[derive(Clone, Copy)]
pub(crate) struct Settled<'a> {
    pub identifier: UnitPattern,
    pub store: &'a str,
}

/// What the lines of a profile settle together, or the fault of what they lack: the index of a use attribute, the
/// identifier, the store, and room for their indexes.
pub(crate) fn settle<'a>(
    alloc: Global,
    placed: &'a [Placed],
    indexes: &Indexes,
) -> Result<Settled<'a>, ProfileFault>
    requires { AreIndexes indexes.now (directives_in placed.now) }
    ensures settled { IfOk result (λ settled. Settles placed.now settled) }
    ensures lacks { IfErr result
        (λ fault. FailsPlaced fault (unless (lack_of placed.now) placed.now)) }
{
    if let Some(line) = unknown_use(alloc, placed, indexes)? {
        return Err(ProfileFault::at_line(line, ProfileFaultKind::UnknownIndex));
    }
    let Some(identifier) = identifier_pattern(placed) else {
        return Err(ProfileFault::at_line(0, ProfileFaultKind::NoIdentifier));
    };
    let Some(store) = store_path(placed) else {
        return Err(ProfileFault::at_line(0, ProfileFaultKind::NoStore));
    };
    if indexes.names.len() > u32::MAX as usize {
        return Err(ProfileFault::at_line(0, ProfileFaultKind::TooManyIndexes));
    }
    Ok(Settled {
        identifier: *identifier,
        store,
    })
}

/// The first line that ties a use attribute to an index that no line has as a target. Names are looked up by their keys, so that the
/// time grows little faster than the profile.
fn unknown_use(
    alloc: Global,
    placed: &[Placed],
    indexes: &Indexes,
) -> Result<Option<u64>, AllocError>
    requires { AreIndexes indexes.now (directives_in placed.now) }
    ensures { IfOk result (λ found. found ≡ option_map (λ line. line.line)
        (find (λ line. ties_unknown_index (directives_in placed.now) line.directive) placed.now)) }
{
    for line in placed {
        if let Directive::Att(_, name) = &line.directive {
            let key = name.key(alloc)?;
            if !indexes.numbers.contains_key(key.as_str()) {
                return Ok(Some(line.line));
            }
        }
    }
    Ok(None)
}
