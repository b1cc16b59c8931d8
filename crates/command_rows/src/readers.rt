//! Readers that a line names, and changes from them.

use crate::lines::{cut, database, kind_of};
use sqlite::Alter;
use std::alloc::{AllocError, Global};
use worked_samples::records;
use zeb_engine::{Refusal, Reply, Session};
use zeb_marc::{ReadFailed, Source};
use zeb_register::Layout;

/// Gives bytes one at a time, from a place on, and then ends or fails.
#[derive(Drop)]
pub struct Stream {
    bytes: Vec<u8>,
    place: usize,
    breaks: bool,
    failed: bool,
}

impl Source for Stream {
    ghost use Rattle.std.specs.Prelude.{None, true};

    ghost remaining = { λ _. None };

    ghost has_failed = { λ s. s.failed };

    ghost may_fail = { λ _. true };

    fn read(&mut self, buffer: &mut [u8]) -> Result<usize, ReadFailed> {
        if self.failed {
            return Err(ReadFailed);
        }
        if buffer.is_empty() {
            return Ok(0);
        }
        match self.bytes.get(self.place) {
            Some(byte) => {
                buffer[0] = *byte;
                self.place = self.place.saturating_add(1);
                Ok(1)
            }
            None if self.breaks => {
                self.failed = true;
                Err(ReadFailed)
            }
            None => Ok(0),
        }
    }

    fn has_failed(&self) -> bool {
        self.failed
    }
}

/// The reader that a word names: `dock+cafe` gives these records and ends, `cafe!` fails behind its record, `cafe!9` behind its first nine bytes,
/// and `cafe?` had failed.
fn stream_of(alloc: Global, word: &str) -> Result<Stream, AllocError> {
    let (names, count) = word.split_once('!').unwrap_or((word, ""));
    let mut bytes = records(alloc, names.trim_end_matches('?'))?;
    let count = count.parse().unwrap_or(bytes.len());
    bytes.truncate(count);
    Ok(Stream {
        bytes,
        place: 0,
        breaks: word.contains('!'),
        failed: word.ends_with('?'),
    })
}

/// The answer to a change, `KIND NAME READER READER ..`. No clause is stated here, so that a test holds no more than what is printed.
pub fn changed<S: Alter, L: Layout>(
    alloc: Global,
    session: &mut Session<S, L>,
    change: &str,
) -> Result<Reply, Refusal> {
    let (word, rest) = cut(change);
    let (name, words) = cut(rest);
    let mut readers = Vec::new(alloc);
    for word in words.split(' ') {
        let reader = stream_of(alloc, word)?;
        readers.push(reader).map_err(AllocError::from)?;
    }
    session.update_from(&database(name)?, kind_of(word)?, &mut readers)
}
