//! The files at and below the paths that a user names.

ghost use Rattle.std.specs.Prelude.{◌≡◌, ◌≤◌, ◌<◌, ◌+◌, ◌++◌, IsPermutation, IsSorted, List, String, map, string_bytes};
ghost use Rattle.std.specs.Prelude.{IfOk, IfSome};
ghost use Rattle.std.specs.String.{string_cmp};
ghost use Rattle.std.specs.declared.alloc.Global.{Global};
ghost use Rattle.zeb_paths.specs.Walks.{WalksOn, due, due_of, dues_in, dues_left, fault_at, paths_left, slashed, telling_of};
ghost use Rattle.zeb_paths.specs.Walks.{step_weight, walk_weight};
ghost use Rattle.zeb_paths.specs.declared.walk.WalkFault.TheVariants.{Memory as Starved};
ghost use Rattle.zeb_paths.specs.PrivateWalks.{Sees};

use crate::causes::PathCause;
use crate::paths::{PathKind, Paths};
use std::alloc::{AllocError, AllocFailed, Global};

/// The greatest level that is read: a folder that is named has level 1, and each folder in it the next.
const GREATEST_LEVEL: u32 = 32;

/// Why the next file isn't given.
#[derive(Debug, Drop)]
pub enum WalkFault {
    /// Nothing stands at this path, or neither a file nor a folder; or it is a folder that can't be listed, or that
    /// stands below the 32nd level.
    Unreadable(String),
    Memory,
}

/// Why a walk can't go on at a path, for this cause: it is want of memory, or the path can't be read.
fn unread(path: String, cause: PathCause) -> WalkFault
    ensures { result ≡ fault_at path cause }
{
    match cause {
        PathCause::Memory => WalkFault::Memory,
        _ => WalkFault::Unreadable(path),
    }
}

impl From<AllocError> for WalkFault {
    ghost from_gives = { λ _ fault. fault ≡ Starved };

    fn from(_error: AllocError) -> WalkFault {
        WalkFault::Memory
    }
}

impl<T: Drop> From<AllocFailed<T>> for WalkFault {
    ghost from_gives = { λ _ fault. fault ≡ Starved };

    fn from(_error: AllocFailed<T>) -> WalkFault {
        WalkFault::Memory
    }
}

/// A path that is still to be looked at, and the level that it has if it is a folder.
#[derive(Drop)]
struct Step {
    path: String,
    level: u32,
}

/// The files at paths and below them, one after the other: those of a folder stand in the folder's place, its names
/// in byte order.
#[derive(Drop)]
pub struct Walk<'a, P: Paths> {
    alloc: Global,
    paths: &'a P,
    // The last one is the next.
    steps: Vec<Step>,
}

impl<'a, P: Paths> Walk<'a, P> {
    /// A walk over these paths, from left to right.
    pub fn new(alloc: Global, paths: &'a P, named: &[String]) -> Result<Walk<'a, P>, AllocError>
        ensures paths { IfOk result (λ walk. walk.paths ≡ paths.entry) }
        ensures left { IfOk result
            (λ walk. paths_left walk.steps.items ≡ map string_bytes named.now) }
        ensures levels { IfOk result (λ walk. dues_left walk.steps.items
            ≡ map (λ path. due (string_bytes path) 1) named.now) }
    {
        let steps = steps_of(alloc, named)?;
        Ok(Walk {
            alloc,
            paths,
            steps,
        })
    }

    /// The path of the next file, or `None` behind the last: what stands in a folder comes in the folder's place, in the
    /// order of the names. After a fault the walk is of no use. What follows of a walk is in `laws`.
    pub fn next_file(&mut self) -> Result<Option<String>, WalkFault>
        ensures paths { self.new.paths ≡ self.old.paths }
        ensures walks { WalksOn (telling_of P.Paths self.old.paths.now)
            (dues_left self.old.steps.items) result (dues_left self.new.steps.items) }
        // So a loop over a walk ends.
        ensures lighter { IfOk result (λ found. IfSome found (λ _.
            walk_weight self.new.steps.items < walk_weight self.old.steps.items)) }
    {
        while let Some(step) = self.steps.pop() {
            match self.look_at(&step) {
                Ok(PathKind::File) => return Ok(Some(step.path)),
                Ok(PathKind::Folder) => {}
                Err(cause) => return Err(unread(step.path, cause)),
            }
        }
        Ok(None)
    }

    /// Looks at a path that was taken off, and puts what stands in a folder in its place.
    fn look_at(&mut self, step: &Step) -> Result<PathKind, PathCause>
        ensures paths { self.new.paths ≡ self.old.paths }
        ensures seen { Sees (telling_of P.Paths self.old.paths.now) (due_of step.now) result
            (dues_left self.old.steps.items) (dues_left self.new.steps.items) }
        ensures lighter { IfOk result
            (λ _. walk_weight self.new.steps.items < walk_weight self.old.steps.items + step_weight
            step.now) }
    {
        match self.paths.kind(step.path.as_str()) {
            Ok(PathKind::File) => Ok(PathKind::File),
            Ok(PathKind::Folder) if step.level <= GREATEST_LEVEL => {
                let names = self.paths.names(self.alloc, step.path.as_str())?;
                put_names(&mut self.steps, self.alloc, step, names)?;
                Ok(PathKind::Folder)
            }
            Ok(PathKind::Folder) => Err(PathCause::TooDeep),
            Err(cause) => Err(cause),
        }
    }
}

/// The paths that are named, the last one first.
fn steps_of(alloc: Global, named: &[String]) -> Result<Vec<Step>, AllocError>
    ensures left { IfOk result (λ steps. paths_left steps.items ≡ map string_bytes named.now) }
    ensures levels { IfOk result (λ steps. dues_left steps.items
        ≡ map (λ path. due (string_bytes path) 1) named.now) }
{
    let mut steps = Vec::new(alloc);
    for path in named {
        let path = path.clone()?;
        steps.push(Step { path, level: 1 })?;
    }
    steps.reverse();
    Ok(steps)
}

/// Puts what stands in a folder, by these names, before what is left.
fn put_names(
    steps: &mut Vec<Step>,
    alloc: Global,
    folder: &Step,
    names: Vec<String>,
) -> Result<(), AllocError>
    requires { folder.now.level ≤ 32 }
    ensures put { IfOk result (λ _. (sorted : List (String Global))
        × IsPermutation names.items sorted × IsSorted string_cmp sorted
        × (dues_left steps.new.items ≡ dues_in (due_of folder.now) (map string_bytes sorted)
        ++ dues_left steps.old.items)) }
    ensures lighter { IfOk result
        (λ _. walk_weight steps.new.items < walk_weight steps.old.items + step_weight folder.now) }
{
    let mut names = names;
    names.sort_unstable();
    // The first name is pushed last, so that it is the next.
    while let Some(name) = names.pop() {
        let path = path_in(alloc, folder.path.as_str(), name.as_str())?;
        let level = folder.level + 1;
        steps.push(Step { path, level })?;
    }
    Ok(())
}

/// The path of a name in a folder.
fn path_in(alloc: Global, folder: &str, name: &str) -> Result<String, AllocError>
    ensures { IfOk result (λ path. string_bytes path ≡ slashed folder.now ++ name.now) }
{
    let between = if folder.ends_with("/") { "" } else { "/" };
    format!(in alloc; "{folder}{between}{name}")
}
