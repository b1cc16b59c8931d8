//! What a register is asked once a statement has altered it.

use crate::layouts::Kept;
use std::alloc::{AllocError, Global};

const SOUND: &str = "ok";

const DAMAGED: &str = "1: register damaged";

/// A register, and what it answers once a statement has altered it.
#[derive(Drop)]
pub struct Damages<'a> {
    /// The names of the layouts that the register is kept in.
    pub layouts: &'a str,
    /// The file of the lines that make it.
    path: &'a str,
    /// What a check answers, a reindex, and a check after it.
    check: &'a str,
    reindex: &'a str,
    second: &'a str,
}

impl<'a> Damages<'a> {
    /// Reads `LAYOUTS FILE CHECK, REINDEX, CHECK`.
    pub fn read(text: &'a str) -> Option<Damages<'a>> {
        let (layouts, text) = text.split_once(' ')?;
        let (path, text) = text.split_once(' ')?;
        let (check, text) = text.split_once(", ")?;
        let (reindex, second) = text.split_once(", ")?;
        Some(Damages {
            layouts,
            path,
            check,
            reindex,
            second,
        })
    }

    /// The lines of a story of the register. Neither a check nor what is refused changes a row. A reindex and an upgrade leave databases and
    /// records.
    pub fn story(&self, alloc: Global, kept: Kept, statement: &str) -> Result<String, AllocError> {
        let (path, check) = (self.path, self.check);
        let mut story = format!(in alloc; "as {path}\nalter {statement}\nnote tables\n")?;
        write!(story, "either zebra.cfg\ncheck -> {check}\nsame\n")?;
        if check != SOUND {
            self.add_refused_upgrades(&mut story, kept)?;
        }
        self.add_renewal(&mut story)?;
        if check == SOUND {
            add_upgrades(&mut story, kept)?;
        }
        Ok(story)
    }

    /// Adds the lines of a reindex, and of a check after it.
    fn add_renewal(&self, story: &mut String) -> Result<(), AllocError> {
        let (reindex, second) = (self.reindex, self.second);
        let left = if reindex == SOUND { "lists" } else { "tables" };
        story.push_str("note ")?;
        story.push_str(left)?;
        write!(
            story,
            "\neither zebra.cfg\nreindex -> {reindex}\ncheck -> {second}\nsame\n"
        )?;
        Ok(())
    }

    /// Adds the lines of upgrades where the check isn't `ok`. An earlier register is turned just where a check finds it sound, and is
    /// refused as the check is. One of the upgrade's own layout stays as it is, whatever its rows.
    fn add_refused_upgrades(&self, story: &mut String, kept: Kept) -> Result<(), AllocError> {
        let check = self.check;
        let own = if check == DAMAGED { SOUND } else { check };
        let (packed, leaves) = match kept {
            Kept::Plain => (Some(check), check),
            Kept::Packed => (Some(own), check),
            Kept::Leaves => (None, own),
        };
        if let Some(packed) = packed {
            write!(story, "packed zebra.cfg\nupgrade -> {packed}\nsame\n")?;
        }
        write!(story, "leaves zebra.cfg\nupgrade -> {leaves}\nsame\n")
    }
}

/// Adds the lines of upgrades of a sound register, to the next layout and the last one.
fn add_upgrades(story: &mut String, kept: Kept) -> Result<(), AllocError> {
    if !matches!(kept, Kept::Leaves) {
        story.push_str("packed zebra.cfg\nupgrade -> ok\ncheck -> ok\nsame\n")?;
    }
    story.push_str("leaves zebra.cfg\nupgrade -> ok\ncheck -> ok\nsame\n")
}
