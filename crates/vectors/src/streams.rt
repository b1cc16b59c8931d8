//! Streams of records: what is read, what is left, and readers that fail or give little at a time.

use crate::rows::{add, bytes_of, number, rows_hold, rows_hold_at_each_beginning};
use std::alloc::{AllocError, Global};
use std::io;
use std::io::{ErrorKind, Read};
use std::test::Fail;
use worked_samples::name_of;
use zeb_marc::{FromRead, Marc, MarcFault, RecordBuf, Slice, Source, next_record};

/// How the bytes of some parts are given, and what is read, up to the end or a failed read: a sample by its name, another record by its
/// length, or a fault; and whether the source has `failed`. The bytes are given by a `slice` or a `reader` of it, by a reader of at most so many
/// bytes at a time, by one that is `failing` behind the last byte or `interrupted` once before the first, or `bytewise`, by one of single bytes
/// that fails behind the last. Of single bytes it is told how many there were, and how many times more the reader was asked.
static ROWS: &str = "\
slice moby+\r%0a+cafe+ %0a+cut -> moby, cafe, Truncated, end
slice moby+\r%0a+cafe+ %0a+\x1a -> moby, cafe, Truncated, end
slice moby+\r%0a+cafe+ %0a+\x1a\x1a\x1a\x1a\x1a -> moby, cafe, LengthDigits, end
slice moby+\r%0a+cafe+ %0a+xxxxx -> moby, cafe, LengthDigits, end
slice moby+\r%0a+cafe+ %0a+00025 -> moby, cafe, LengthRange, end
# A run of separators has a limit.
slice 65536 * \x20 -> TooManySeparators, end
slice 65536 * \x20+moby -> TooManySeparators, moby, end
slice 65536 * %0a+moby -> TooManySeparators, moby, end
# A fault takes the bytes that show it, and a record that is cut off all there is.
slice xxxxx+moby -> LengthDigits, moby, end
slice  \r%0a0010x+moby -> LengthDigits, moby, end
slice 00025+moby -> LengthRange, moby, end
slice 108 of moby -> Truncated, end
# A reader is a source. No read is tried again: the record that a second one would have given is not answered.
reader cafe -> cafe, end
reader 63 of cafe -> Truncated, end
failing 63 of cafe -> ReadFault, failed
interrupted moby -> ReadFault, failed
# A sound reader never fails.
1 moby+cafe -> moby, cafe, end, 173+1 reads
2 moby+cafe -> moby, cafe, end
7 moby+cafe -> moby, cafe, end
108 moby+cafe -> moby, cafe, end
109 moby+cafe -> moby, cafe, end
110 moby+cafe -> moby, cafe, end
4096 moby+cafe -> moby, cafe, end
failing moby+cafe -> moby, cafe, ReadFault, failed
# A record without a field is the shortest; one may be as long as five digits say.
reader bare -> bare, end
reader 04096nam a2200025 a 4500\x1e+4070 * \x20+\x1d -> 4096, end
reader 65536nam a2200025 a 4500\x1e+65510 * \x20+\x1d -> 65536, end
reader 99999nam a2200025 a 4500\x1e+99973 * \x20+\x1d -> 99999, end
# A fault before the failure is answered. Behind the separators of the fourth row the next read would tell, and it fails.
failing xxxxx -> LengthDigits, ReadFault, failed
failing 00025 -> LengthRange, ReadFault, failed
failing 65536 * \x20 -> TooManySeparators, ReadFault, failed
failing 65535 * \x20 -> ReadFault, failed
failing xxxx -> ReadFault, failed
# A reader is asked no more often than the answers need bytes, and once for its failure.
bytewise moby -> moby, ReadFault, failed, 109+1 reads
bytewise 65535 * \x20+\x20 -> TooManySeparators, ReadFault, failed, 65536+1 reads
bytewise 65535 * \x20 -> ReadFault, failed, 65535+1 reads
bytewise 65535 * \x20+xxxxx -> LengthDigits, ReadFault, failed, 65540+1 reads
bytewise 65535 * \x20+00025 -> LengthRange, ReadFault, failed, 65540+1 reads
bytewise 65535 * \x20+99999nam a2200025 a 4500\x1e+99973 * \x20+\x1d -> 99999, ReadFault, failed, 165534+1 reads
# Nor is it asked again once it has told its end, but for the next record.
1  -> end, 0+1 reads
1 moby -> moby, end, 109+1 reads
1 63 of cafe -> Truncated, end, 63+2 reads
1 xxxx -> Truncated, end, 4+2 reads
";

/// Of each beginning of `moby`, and of `cafe`.
static IN_THE_FIRST: &str = "\
bytewise N of moby -> ReadFault, failed, N+1 reads
failing N of moby -> ReadFault, failed
";

static IN_THE_SECOND: &str = "failing moby+N of cafe -> moby, ReadFault, failed\n";

/// A reader that gives at most so many bytes at a time, and fails once, where so many are left. It counts how often it is asked.
#[derive(Drop)]
struct Portions<'a> {
    bytes: &'a [u8],
    most: usize,
    fails_before: Option<usize>,
    reads: usize,
}

impl Read for Portions<'_> {
    fn read(&mut self, buffer: &mut [u8]) -> io::Result<usize> {
        self.reads = self.reads.saturating_add(1);
        if self.fails_before == Some(self.bytes.len()) {
            self.fails_before = None;
            return Err(io::Error::from(ErrorKind::Interrupted));
        }
        let count = buffer.len().min(self.most).min(self.bytes.len());
        buffer[..count].copy_from_slice(&self.bytes[..count]);
        self.bytes = &self.bytes[count..];
        Ok(count)
    }
}

/// A record by its sample's name; another by its length, where it ends the stream.
fn record_text(alloc: Global, stream: &[u8], record: &[u8]) -> Result<String, AllocError> {
    match name_of(record) {
        Some(name) => String::from_str(alloc, name),
        None if Marc::read(record).is_ok() && stream.ends_with(record) => {
            record.len().to_string(alloc)
        }
        None => String::from_str(alloc, "other bytes"),
    }
}

/// What is answered, where the buffer has as many bytes as it says.
fn reading_text(
    alloc: Global,
    answer: Result<Option<usize>, MarcFault>,
    stream: &[u8],
    record: &[u8],
) -> Result<String, AllocError> {
    match answer {
        Ok(Some(length)) if record.len() == length => record_text(alloc, stream, record),
        Ok(None) if record.is_empty() => String::from_str(alloc, "end"),
        Err(fault) if record.is_empty() => fault.to_string(alloc),
        _ => String::from_str(alloc, "another length"),
    }
}

/// What is read of a source, up to its end or a failed read.
fn readings<S: Source>(alloc: Global, stream: &[u8], source: &mut S) -> Result<String, AllocError> {
    let mut buffer = RecordBuf::new(alloc)?;
    let mut found = String::new(alloc);
    let mut is_end = false;
    for _ in 0..9 {
        if is_end || source.has_failed() {
            break;
        }
        let answer = next_record(source, &mut buffer);
        is_end = matches!(answer, Ok(None));
        let text = reading_text(alloc, answer, stream, buffer.bytes())?;
        add(&mut found, ", ", &text)?;
    }
    if source.has_failed() {
        add(&mut found, ", ", "failed")?;
    }
    Ok(found)
}

/// What is read of a reader that gives the bytes in portions.
fn portioned(alloc: Global, how: &str, bytes: &[u8]) -> Result<String, AllocError> {
    let (most, fails_before) = match how {
        "bytewise" => (1, Some(0)),
        "failing" => (4096, Some(0)),
        "interrupted" => (4096, Some(bytes.len())),
        most => (number(most), None),
    };
    let mut reader = Portions {
        bytes,
        most,
        fails_before,
        reads: 0,
    };
    let mut found = readings(alloc, bytes, &mut FromRead::new(&mut reader))?;
    if most == 1 {
        let more = reader.reads.saturating_sub(bytes.len());
        write!(found, ", {}+{more} reads", bytes.len())?;
    }
    Ok(found)
}

/// What is read of bytes that are given so.
fn given(alloc: Global, how: &str, bytes: &[u8]) -> Result<String, AllocError> {
    match how {
        "slice" => readings(alloc, bytes, &mut Slice::new(bytes)),
        "reader" => readings(alloc, bytes, &mut FromRead::new(bytes)),
        _ => portioned(alloc, how, bytes),
    }
}

fn answer(alloc: Global, text: &str) -> Result<String, AllocError> {
    let (how, parts) = text.split_once(' ').unwrap_or((text, ""));
    given(alloc, how, &bytes_of(alloc, parts)?)
}

#[test]
fn streams_are_read(rt: HostRuntime) -> Result<(), Fail> {
    rows_hold(rt.alloc(), ROWS, answer)
}

/// However many bytes of both records stand before it, a failed read is a fault, and no end.
#[test]
fn a_read_may_fail_behind_each_byte(rt: HostRuntime) -> Result<(), Fail> {
    rows_hold_at_each_beginning(rt.alloc(), "moby", IN_THE_FIRST, answer)?;
    rows_hold_at_each_beginning(rt.alloc(), "cafe", IN_THE_SECOND, answer)
}
