//! Layouts of the tables, and how many rows were run over each.

use crate::faults::Fault;
use std::alloc::Global;
use std::fmt;

/// A layout of the tables: a row for each posting, for each block of a key, or for a leaf of many blocks.
#[derive(Clone, Copy)]
pub enum Kept {
    Plain,
    Packed,
    Leaves,
}

impl Kept {
    /// The layout of this name.
    pub fn named(name: &str) -> Result<Kept, Fault> {
        match name {
            "plain" => Ok(Kept::Plain),
            "packed" => Ok(Kept::Packed),
            "leaves" => Ok(Kept::Leaves),
            _ => Err(Fault::Line("no such layout")),
        }
    }

    /// Its name.
    pub fn name(self) -> &'static str {
        match self {
            Kept::Plain => "plain",
            Kept::Packed => "packed",
            Kept::Leaves => "leaves",
        }
    }
}

/// The layouts of these names, with commas between, or all of them for `each`.
pub fn layouts_of(alloc: Global, names: &str) -> Result<Vec<Kept>, Fault> {
    let names = match names {
        "each" => "plain,packed,leaves",
        other => other,
    };
    let mut layouts = Vec::new(alloc);
    for name in names.split(',') {
        layouts.push(Kept::named(name)?)?;
    }
    Ok(layouts)
}

/// How many rows were run over each layout.
#[derive(Clone, Copy)]
pub struct Counts {
    plain: usize,
    packed: usize,
    leaves: usize,
}

impl Counts {
    /// None over any.
    pub const NONE: Counts = Counts {
        plain: 0,
        packed: 0,
        leaves: 0,
    };

    /// Counts so many more rows over a layout.
    pub fn add(&mut self, kept: Kept, count: usize) {
        let counted = match kept {
            Kept::Plain => &mut self.plain,
            Kept::Packed => &mut self.packed,
            Kept::Leaves => &mut self.leaves,
        };
        *counted = counted.saturating_add(count);
    }
}

impl fmt::Display for Counts {
    fn fmt<W: fmt::Write>(&self, f: &mut fmt::Formatter<W>) -> fmt::Result {
        let (plain, packed, leaves) = (self.plain, self.packed, self.leaves);
        write!(f, "{plain} rows plain, {packed} packed, {leaves} in leaves")
    }
}
