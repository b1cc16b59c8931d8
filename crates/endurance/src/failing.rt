//! Inputs and outputs that fail: at each byte, and each time that an output has to pass on. The status, what was written before, and what
//! is left of the input.

use crate::rows::{Done, Row, compare};
use crate::runs::{End, Ends, Input, Narrow, OPEN, Takes, run_on};
use sqlite::MemStore;
use std::alloc::{AllocError, Global};
use std::io::{self, BufWriter};
use std::test::Fail;
use zeb_packed::Blocks;
use zeb_paths::Shelf;
use zeb_program::Sink;

/// Lines over a register that holds Moby Dick.
static LINES: &str = "\
find Default moby -> hits 1; 1 a1
update Default hex:cafe -> inserted 1 updated 0 deleted 0
# a remark
stat X -> zebraidx: diagnostic 235 at 0: X
x -> zebraidx: bad line 5; 2
find Default cafe -> hits 1; 2 b2";

/// A profile, and lines over a new register.
static SCRIPT: &str = "\
store books.db
identifier 001
att 4 Title
melm 245 Title
.
init -> ok
update Default hex:moby -> inserted 1 updated 0 deleted 0
find Default @attr 1=4 whale -> hits 1; 1 a1
find X @attr 1=4 whale -> zebraidx: diagnostic 235 at 0: X
x -> zebraidx: bad line 10; 2";

/// Words that read no input.
static WORDS: &str = "\
find|@attr 1=4 moby -> hits 1; 1 a1
drop|X -> 1: diagnostic 235 at 0: X; 1: cause: database does not exist
update|missing -> 3: cannot read missing
create|a/b -> 2: bad usage; \
2: cause: a database's name has 1 to 64 ASCII letters, digits, '-', '_' and '.', and no others";

/// What is said of a script that can't be read, and of another input.
const CUT: &str = "zebraidx: cannot read input";

const UNREAD: &str = "3: cannot read input; 3: cause: a read failed";

/// A run over the register that holds Moby Dick is as a row says, or fails.
fn is_run(takes: Takes, row: &Row, input: &mut Input<'_>, fails: bool) -> Done {
    Ends::run_loaded::<Blocks>(takes, row, input)?.are(row, fails)
}

/// What comes of an input that fails behind these bytes. A shell has answered the lines before; else none is run.
fn cut_off(alloc: Global, words: &str, lines: &str, bytes: &[u8]) -> Result<Row, AllocError> {
    let ended = bytes.iter().filter(|byte| **byte == b'\n').count();
    let count = if words == "shell" { ended } else { 0 };
    let mut row = Row::of_lines(alloc, words, lines, count)?;
    row.add("", if words.is_empty() { CUT } else { UNREAD })?;
    Ok(row)
}

/// The input fails behind each of its bytes, of which so many are given at a time.
fn reads_fail(alloc: Global, words: &str, lines: &str, most: usize) -> Done {
    let whole = Row::of_lines(alloc, words, lines, usize::MAX)?;
    for place in 0..=whole.input.len() {
        let bytes = &whole.input.as_bytes()[..place];
        let row = cut_off(alloc, words, lines, bytes)?;
        is_run(OPEN, &row, &mut Input::new(bytes, most, End::Failure), true)?;
    }
    Ok(())
}

#[test]
fn lines_behind_a_read_that_fails_are_not_run(rt: HostRuntime) -> Result<(), Fail> {
    for (words, lines) in [("", SCRIPT), ("batch", LINES), ("shell", LINES)] {
        reads_fail(rt.alloc(), words, lines, 1)?;
        reads_fail(rt.alloc(), words, lines, 8192)?;
    }
    Ok(())
}

#[test]
fn an_input_without_end_is_refused(rt: HostRuntime) -> Result<(), Fail> {
    let row = Row::read(rt.alloc(), " -> zebraidx: cannot read input; 3")?;
    Ok(is_run(OPEN, &row, &mut Input::new(&[], 1, End::Never), true)?)
}

/// A run over outputs that may fail writes the answers of the lines that it reads of an input, as far as they go in, and reads no others.
fn is_hindered(row: &Row, input: &str, takes: Takes, fails: bool) -> Done {
    let mut source = Input::new(input.as_bytes(), usize::MAX, End::Told);
    is_run(takes, row, &mut source, fails)?;
    if source.bytes.len() == input.len().saturating_sub(row.input.len()) {
        return Ok(());
    }
    compare(*row.words.allocator(), "another part is read", &row.input)
}

/// Both outputs fail behind each byte that is written, and either where it is to pass on.
fn writes_fail(row: &Row) -> Done {
    let length = row.output.len().max(row.faults.len());
    for room in 0..=length {
        is_hindered(row, &row.input, (room, 1, 1), room < length)?;
    }
    is_hindered(row, &row.input, (length, 0, 1), true)?;
    is_hindered(row, &row.input, (length, 1, 0), true)
}

#[test]
fn outputs_may_fail_at_each_byte_and_at_the_end(rt: HostRuntime) -> Result<(), Fail> {
    writes_fail(&Row::of_lines(rt.alloc(), "", SCRIPT, usize::MAX)?)?;
    writes_fail(&Row::of_lines(rt.alloc(), "batch", LINES, usize::MAX)?)?;
    for line in WORDS.split('\n') {
        writes_fail(&Row::read(rt.alloc(), line)?)?;
    }
    Ok(())
}

/// The lines of a shell up to the first one whose answer doesn't go into so many bytes, or isn't passed on, if it is so many times.
fn lines_read(alloc: Global, room: usize, passes: usize) -> Result<Row, AllocError> {
    let mut row = Row::of_lines(alloc, "shell", "", 0)?;
    for (count, line) in LINES.split('\n').enumerate() {
        if count <= passes && row.output.len() <= room {
            row.add_lines(line, 1)?;
        }
    }
    Ok(row)
}

/// The output of a shell takes so many bytes and passes on so many times.
fn shell_fails(whole: &Row, room: usize, passes: usize) -> Done {
    let read = lines_read(*whole.words.allocator(), room, passes)?;
    let fails = room < whole.output.len() || passes <= LINES.split('\n').count();
    is_hindered(&read, &whole.input, (room, passes, 1), fails)
}

/// There are fewer lines than bytes of answers.
#[test]
fn a_shell_ends_where_its_output_fails(rt: HostRuntime) -> Result<(), Fail> {
    let whole = Row::of_lines(rt.alloc(), "shell", LINES, usize::MAX)?;
    for place in 0..=whole.output.len() {
        shell_fails(&whole, place, usize::MAX)?;
        shell_fails(&whole, usize::MAX, place)?;
    }
    Ok(())
}

/// The status of a script whose output is held back before it goes to a writer.
fn held_back(row: &Row, narrow: &mut Narrow) -> io::Result<u8> {
    let writer = BufWriter::new(*row.words.allocator(), narrow)?;
    let mut input = Input::new(row.input.as_bytes(), usize::MAX, End::Told);
    let mut shelf = Shelf::<MemStore>::new(&[], None);
    let (mut output, mut faults) = (Sink::new(writer), Sink::new(io::sink()));
    Ok(run_on(row, &mut input, &mut output, &mut faults, &mut shelf))
}

#[test]
fn a_writer_that_holds_all_back_fails_at_the_end(rt: HostRuntime) -> Result<(), Fail> {
    let row = Row::of_lines(rt.alloc(), "", SCRIPT, usize::MAX)?;
    for room in 0..=row.output.len() {
        let mut ends = Ends::new(rt.alloc(), (room, 1, 1));
        ends.status = held_back(&row, &mut ends.output)?;
        ends.are(&row, room < row.output.len())?;
    }
    Ok(())
}
