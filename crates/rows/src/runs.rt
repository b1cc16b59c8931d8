//! Runs of the program.

use crate::faults::Fault;
use crate::folder::Folder;
use crate::layouts::Kept;
use crate::outcomes::Outcome;
use crate::texts::text_of;
use sqlite::{Connection, MemStore};
use std::alloc::Global;
use zeb_marc::Slice;
use zeb_paths::{Paths, Shelf};
use zeb_program::{Sink, run};

/// Runs the program without words on an input.
pub fn run_input(folder: &Folder, input: &[u8]) -> Result<Outcome, Fault> {
    run_over(folder, None, &[], input)
}

/// Runs the program on words, with blanks between, over the folder's register in this layout. Its input is the folder's file `input`, if
/// there is one.
pub fn run_words(folder: &Folder, kept: Kept, line: &str) -> Result<Outcome, Fault> {
    let mut words = Vec::new(folder.alloc);
    for word in line.split(' ') {
        words.push(text_of(folder.alloc, word)?)?;
    }
    run_over(folder, folder.store(kept)?, &words, folder.input())
}

/// Runs the lines of a batch over a register in this layout that holds nothing.
pub fn run_batch(folder: &Folder, kept: Kept, lines: &[u8]) -> Result<Outcome, Fault> {
    let mut words = Vec::new(folder.alloc);
    words.push(String::from_str(folder.alloc, "batch")?)?;
    run_over(folder, Some(folder.begun(kept)?), &words, lines)
}

/// Runs the program over the folder's files and a store.
fn run_over(
    folder: &Folder,
    store: Option<Connection<MemStore>>,
    words: &[String],
    input: &[u8],
) -> Result<Outcome, Fault> {
    let files = folder.shelved()?;
    let mut shelf = Shelf::new(&files, store);
    Ok(run_on(folder.alloc, words, &mut shelf, input))
}

fn run_on<P: Paths>(alloc: Global, words: &[String], files: &mut P, input: &[u8]) -> Outcome {
    let mut output = Vec::new(alloc);
    let mut faults = Vec::new(alloc);
    let status = run(
        alloc,
        words,
        &mut Slice::new(input),
        &mut Sink::new(&mut output),
        &mut Sink::new(&mut faults),
        files,
    );
    Outcome {
        status,
        output,
        faults,
        is_open: false,
    }
}
