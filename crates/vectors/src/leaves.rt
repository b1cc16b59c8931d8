//! A worked leaf both ways, and what is found in it.

use crate::rows::{number, rows_hold, text_of};
use std::alloc::{AllocError, Global};
use std::test::Fail;
use zeb_leaf::{BlockKey, Entry, Held, LeafFault, LeafReader, push_span, read_leaf, spell_leaf};

/// Two terms that share three bytes, and a second block of the other: `mob` in block 0, `moby` in blocks 0 and 2, there in 256 records.
static LEAF: &[u8] = &[
    0, 3, b'm', b'o', b'b', 0, 1, 3, 1, 2, 2, //
    3, 1, b'y', 0, 1, 3, 1, 2, 2, //
    4, 0, 2, 0x80, 2, 3, 0, 2, 2,
];

/// The entries of the leaf, where these spell it; the first one that a walk gives; and what is found in so many bytes of the leaf, of a term in a
/// block.
static ROWS: &str = "\
entries -> mob Held { block: 0, records: 1, bytes: [1, 2, 2] }%0a\
moby Held { block: 0, records: 1, bytes: [1, 2, 2] }%0a\
moby Held { block: 2, records: 256, bytes: [0, 2, 2] }%0a
walk -> mob Held { block: 0, records: 1, bytes: [1, 2, 2] }%0a
29 moby 2 -> [Held { block: 2, records: 256, bytes: [0, 2, 2] }]
29 moby 1 -> []
8 moby 1 -> Malformed
";

fn push_entry(lines: &mut String, term: &[u8], held: Held<'_>) -> Result<(), AllocError> {
    let term = text_of(term);
    writeln!(lines, "{term} {held:?}")
}

fn lines_of(alloc: Global, entries: &[Entry]) -> Result<String, AllocError> {
    let mut lines = String::new(alloc);
    for entry in entries {
        let held = Held {
            block: entry.block,
            records: entry.records,
            bytes: entry.bytes.as_slice(),
        };
        push_entry(&mut lines, entry.term.as_slice(), held)?;
    }
    Ok(lines)
}

/// The entries of the leaf, where these spell it.
fn entries_line(alloc: Global) -> Result<String, AllocError> {
    let Ok(entries) = read_leaf(alloc, LEAF) else {
        return Err(AllocError);
    };
    if spell_leaf(alloc, &entries)?.as_slice() == LEAF {
        lines_of(alloc, &entries)
    } else {
        String::from_str(alloc, "other bytes")
    }
}

/// The first entry that a walk gives.
fn walk_line(alloc: Global) -> Result<String, AllocError> {
    let mut reader = LeafReader::new(alloc, LEAF);
    let Ok(Some(held)) = reader.next() else {
        return Err(AllocError);
    };
    let mut line = String::new(alloc);
    push_entry(&mut line, reader.term(), held)?;
    Ok(line)
}

/// What so many bytes of the leaf have of a term in a block.
fn found_line(alloc: Global, count: &str, text: &str) -> Result<String, AllocError> {
    let leaf = LEAF.get(..number(count)).unwrap_or(&[]);
    let (term, block) = text.split_once(' ').unwrap_or((text, ""));
    let block: u64 = block.parse().unwrap_or(0);
    let term = term.as_bytes();
    let first = BlockKey { term, block };
    let end = BlockKey {
        term,
        block: block.saturating_add(1),
    };
    let mut held = Vec::new(alloc);
    match push_span(alloc, &mut held, leaf, first, end) {
        Ok(()) => format!(in alloc; "{held:?}"),
        Err(LeafFault::Malformed) => String::from_str(alloc, "Malformed"),
        Err(LeafFault::Memory) => Err(AllocError),
    }
}

fn answer(alloc: Global, text: &str) -> Result<String, AllocError> {
    match text.split_once(' ') {
        Some((count, text)) => found_line(alloc, count, text),
        None if text == "walk" => walk_line(alloc),
        None => entries_line(alloc),
    }
}

#[test]
fn leaf_is_read_and_written(rt: HostRuntime) -> Result<(), Fail> {
    rows_hold(rt.alloc(), ROWS, answer)
}
