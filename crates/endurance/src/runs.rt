//! Runs of the program over outputs that may fail.

ghost use Rattle.std.specs.Prelude.{[]};

use crate::rows::{Done, Row, compare};
use command_rows::sessions::ask;
use sqlite::{Connection, MemStore};
use std::alloc::{AllocError, Global};
use std::io::{ErrorKind, Read, Write};
use std::{io, str};
use worked_samples::{profile, record};
use zeb_marc::FromRead;
use zeb_paths::{Paths, Shelf, Shelved};
use zeb_program::{Output, Sink, run};
use zeb_register::Layout;

/// The status of a run in which something failed.
pub const FAILED: u8 = 3;

/// A writer that takes a byte at a time, so many in all, and passes on so many times; then each call fails.
#[derive(Drop)]
pub struct Narrow {
    room: usize,
    passes: usize,
    written: Vec<u8>,
}

impl Narrow {
    fn new(alloc: Global, room: usize, passes: usize) -> Narrow {
        Narrow {
            room,
            passes,
            written: Vec::new(alloc),
        }
    }

    pub fn text(&self) -> &str {
        str::from_utf8(self.written.as_slice()).unwrap_or("no text")
    }

    /// It has as much of a text as it takes.
    fn has(&self, text: &str) -> Done {
        let wanted = text.get(..self.room).unwrap_or(text);
        compare(*self.written.allocator(), self.text(), wanted)
    }
}

impl Write for Narrow {
    fn write(&mut self, bytes: &[u8]) -> io::Result<usize> {
        if bytes.is_empty() {
            return Ok(0);
        }
        if self.written.len() >= self.room {
            return Err(io::Error::from(ErrorKind::BrokenPipe));
        }
        self.written.extend_from_slice(&bytes[..1])?;
        Ok(1)
    }

    fn flush(&mut self) -> io::Result<()> {
        if self.passes == 0 {
            return Err(io::Error::from(ErrorKind::BrokenPipe));
        }
        self.passes -= 1;
        Ok(())
    }
}

impl Output for Narrow {
    ghost held_back = { λ _. [] };

    fn pass_on(&mut self) -> io::Result<()> {
        self.flush()
    }
}

/// How many bytes each output takes, and how many times the output and the fault output pass on.
pub type Takes = (usize, usize, usize);

/// Outputs that take all.
pub const OPEN: Takes = (usize::MAX, usize::MAX, usize::MAX);

/// How an input ends: it says so, each read fails, or LF comes without end.
#[derive(Clone, Copy)]
pub enum End {
    Told,
    Failure,
    Never,
}

/// An input of some bytes, of which at most so many are given at a time, before it ends.
#[derive(Drop)]
pub struct Input<'a> {
    pub bytes: &'a [u8],
    most: usize,
    end: End,
}

impl<'a> Input<'a> {
    pub fn new(bytes: &'a [u8], most: usize, end: End) -> Input<'a> {
        Input { bytes, most, end }
    }
}

impl Read for Input<'_> {
    fn read(&mut self, buffer: &mut [u8]) -> io::Result<usize> {
        if !self.bytes.is_empty() {
            let count = self.bytes.len().min(buffer.len()).min(self.most);
            let (now, later) = self.bytes.split_at(count);
            buffer[..count].copy_from_slice(now);
            self.bytes = later;
            return Ok(count);
        }
        match self.end {
            End::Told => return Ok(0),
            End::Failure => return Err(io::Error::from(ErrorKind::TimedOut)),
            End::Never => buffer.fill(b'\n'),
        }
        Ok(buffer.len())
    }
}

/// Runs the program on a row's words and an input. No clause is stated here, so that a test holds no more than what is written.
pub fn run_on<W: Output, V: Output, P: Paths>(
    row: &Row,
    input: &mut Input<'_>,
    output: &mut Sink<W>,
    faults: &mut Sink<V>,
    paths: &mut P,
) -> u8 {
    let alloc = *row.words.allocator();
    let mut input = FromRead::new(input);
    run(alloc, &row.words, &mut input, output, faults, paths)
}

/// The outputs of a run, and its status.
#[derive(Drop)]
pub struct Ends {
    pub output: Narrow,
    pub faults: Narrow,
    pub status: u8,
}

impl Ends {
    /// Outputs that take so much, to which nothing is written yet.
    pub fn new(alloc: Global, takes: Takes) -> Ends {
        let (room, passes, fault_passes) = takes;
        Ends {
            output: Narrow::new(alloc, room, passes),
            faults: Narrow::new(alloc, room, fault_passes),
            status: 0,
        }
    }

    /// Runs the program on a row's words and an input.
    pub fn run<P: Paths>(takes: Takes, row: &Row, input: &mut Input<'_>, paths: &mut P) -> Ends {
        let mut ends = Ends::new(*row.words.allocator(), takes);
        let mut output = Sink::new(&mut ends.output);
        let mut faults = Sink::new(&mut ends.faults);
        ends.status = run_on(row, input, &mut output, &mut faults, paths);
        ends
    }

    /// The same over some files and a register of the layout `L` that holds Moby Dick.
    pub fn run_loaded<L: Layout>(
        takes: Takes,
        row: &Row,
        input: &mut Input<'_>,
    ) -> Result<Ends, AllocError> {
        let files = [
            filed("zebra.cfg", profile("books").as_bytes()),
            filed("a.mrc", record("moby")),
            filed("b.mrc", record("cafe")),
            filed("in/b.mrc", record("cafe")),
            filed("in/a/dock.mrc", record("dock")),
        ];
        let store = loaded::<L>(*row.words.allocator())?;
        Ok(Ends::run(takes, row, input, &mut Shelf::new(&files, Some(store))))
    }

    /// What the row says was written, as far as it went in, and the status is its own, or `FAILED` where the run failed.
    pub fn are(&self, row: &Row, has_failed: bool) -> Done {
        self.output.has(&row.output)?;
        self.faults.has(&row.faults)?;
        let wanted = if has_failed { FAILED } else { row.status };
        let alloc = *row.words.allocator();
        let found = self.status.to_string(alloc)?;
        compare(alloc, &found, &wanted.to_string(alloc)?)
    }
}

fn filed<'a>(path: &'a str, bytes: &'a [u8]) -> Shelved<'a> {
    let bytes = Some(bytes);
    Shelved { path, bytes }
}

/// A store in memory whose register, of the layout `L`, holds Moby Dick in the database `Default`.
fn loaded<L: Layout>(alloc: Global) -> Result<Connection<MemStore>, AllocError> {
    let new = Connection::open_in_memory(alloc)?;
    let (begun, _) = ask::<MemStore, L>(alloc, new, "either books", "init");
    let (store, answer) = ask::<MemStore, L>(alloc, begun, "either books", "update Default moby");
    match answer {
        Ok(_) => Ok(store),
        Err(_) => Err(AllocError),
    }
}
