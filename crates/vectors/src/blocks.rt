//! Worked blocks of postings both ways, bytes that are refused, and the longest numbers.
ghost use Rattle.std.specs.Prelude.{◌<◌, ◌^◌, length};
ghost use Rattle.zeb_blocks.specs.Blocks.{BlockSpells};

use crate::rows::rows_hold;
use std::alloc::{AllocError, Global};
use std::test::Fail;
use zeb_blocks::{Damaged, Posting, Postings, push_block, records_in, spell};

/// A block's number and its bytes, and the postings that they spell there: system number, unit and place.
static ROWS: &str = "\
0: 1 2 2 -> 1.2.2;
0: 1 2 2 0 1 1 -> 1.2.2;1.3.1;
0: 1 2 2 0 0 3 -> 1.2.2;1.2.5;
0: 1 2 2 254 1 1 1 -> 1.2.2;255.1.1;
1: 0 2 2 -> 256.2.2;
# The longest numbers, and the greatest of nine bytes.
72057594037927935: 255 1 128 128 128 128 128 128 128 128 128 1 255 255 255 255 255 255 255 255 255 1 -> \
18446744073709551615.9223372036854775808.18446744073709551615;
0: 1 255 255 255 255 255 255 255 255 127 1 -> 1.9223372036854775807.1;
# Bytes that are refused. In the last but one a number has eleven bytes; no system number of so high a block as the last fits 64 bits.
0:  -> damaged
0: 0 2 2 -> damaged
0: 1 2 -> damaged
0: 1 2 130 -> damaged
0: 1 2 130 0 -> damaged
0: 1 2 2 0 0 0 -> damaged
0: 128 2 1 1 -> damaged
0: 1 255 255 255 255 255 255 255 255 255 2 1 -> damaged
0: 1 128 128 128 128 128 128 128 128 128 129 1 1 -> damaged
72057594037927936: 0 2 2 -> damaged
";

fn bytes_of(alloc: Global, text: &str) -> Result<Vec<u8>, AllocError> {
    let mut bytes = Vec::new(alloc);
    if text.is_empty() {
        return Ok(bytes);
    }
    for number in text.split(' ') {
        bytes.push(number.parse().unwrap_or(0))?;
    }
    Ok(bytes)
}

fn listed(alloc: Global, postings: &[Posting]) -> Result<String, AllocError> {
    let mut listed = String::new(alloc);
    for posting in postings {
        let (sysno, seq, pos) = (posting.sysno, posting.seq, posting.pos);
        write!(listed, "{sysno}.{seq}.{pos};")?;
    }
    Ok(listed)
}

/// Whether the bytes put the postings behind those of a list, and say of how many records they are.
fn are_pushed(block: u64, bytes: &[u8], list: &Vec<Posting>) -> Result<bool, AllocError> {
    let mut pushed = list.clone()?;
    let is_counted = push_block(&mut pushed, block, bytes)? == Ok(records_in(list));
    Ok(is_counted && pushed.strip_prefix(list.as_slice()) == Some(list.as_slice()))
}

/// The postings of a block, where each way of reading gives them and they are spelled as the bytes.
fn sound_line(
    alloc: Global,
    block: u64,
    bytes: &[u8],
    postings: Postings<'_>,
) -> Result<String, AllocError>
    requires spelled { BlockSpells block postings bytes.now }
    requires few { length postings < 2 ^ 64 }
{
    let counts = (postings.len(), postings.clone()?.count());
    let list: Vec<Posting> = postings.collect(alloc)?;
    let is_spelled = spell(alloc, block, &list)?.as_slice() == bytes;
    if counts == (list.len(), list.len()) && is_spelled && are_pushed(block, bytes, &list)? {
        listed(alloc, &list)
    } else {
        String::from_str(alloc, "other postings")
    }
}

/// What is said where a block isn't read.
fn damaged_line(alloc: Global, block: u64, bytes: &[u8]) -> Result<String, AllocError> {
    match push_block(&mut Vec::new(alloc), block, bytes)? {
        Ok(_) => String::from_str(alloc, "pushed and not read"),
        Err(Damaged) => String::from_str(alloc, "damaged"),
    }
}

/// What is said of a block's bytes.
fn block_line(alloc: Global, block: u64, bytes: &[u8]) -> Result<String, AllocError> {
    match Postings::read(block, bytes) {
        Ok(postings) => sound_line(alloc, block, bytes, postings),
        Err(Damaged) => damaged_line(alloc, block, bytes),
    }
}

fn answer(alloc: Global, text: &str) -> Result<String, AllocError> {
    let (block, bytes) = text.split_once(": ").unwrap_or((text, ""));
    block_line(alloc, block.parse().unwrap_or(0), &bytes_of(alloc, bytes)?)
}

#[test]
fn blocks_are_read_and_written(rt: HostRuntime) -> Result<(), Fail> {
    rows_hold(rt.alloc(), ROWS, answer)
}
