//! Tests over public names, and no product code, of what no row of text can say: commands and whole runs whose readers, outputs, disks and
//! allocations fail, registers and damage that are drawn by lot, and lines of words. Whichever allocation is refused
//! (tests/each_allocation.py of the repository refuses each in turn), the tests of memory pass.
#![tactic(auto)]

#[cfg(test)]
mod crashes;
#[cfg(test)]
mod drawn;
#[cfg(test)]
mod failing;
#[cfg(test)]
mod failing_readers;
#[cfg(test)]
mod folder;
#[cfg(test)]
mod lists;
#[cfg(test)]
mod memory;
#[cfg(test)]
mod rows;
#[cfg(test)]
mod runs;
#[cfg(test)]
mod stories;
#[cfg(test)]
mod words;
