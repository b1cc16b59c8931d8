//! Runs of the program as lines of text, and checks of what they write.

use command_rows::sessions::Stopped;
use std::alloc::{AllocError, Global};
use worked_samples::record;

/// Why something isn't as it should be, if it isn't.
pub type Done = Result<(), Stopped>;

/// What was found is what is wanted.
pub fn compare(alloc: Global, found: &str, wanted: &str) -> Done {
    if found == wanted {
        return Ok(());
    }
    Err(Stopped::Otherwise(format!(in alloc; "{found} in place of {wanted}")?))
}

/// The words of a line that isn't empty, with this character between them.
pub fn words_of(alloc: Global, line: &str, between: char) -> Result<Vec<String>, AllocError> {
    let mut words = Vec::new(alloc);
    for word in line.split(between).skip(usize::from(line.is_empty())) {
        words.push(String::from_str(alloc, word)?)?;
    }
    Ok(words)
}

/// What a run is given, and what it writes and ends in.
#[derive(Drop)]
pub struct Row {
    pub words: Vec<String>,
    pub input: String,
    pub output: String,
    pub faults: String,
    pub status: u8,
}

type Made = Result<Row, AllocError>;

impl Row {
    /// Reads `WORDS -> ANSWER` or `WORDS < INPUT -> ANSWER`: words with bars between, and lines with `; ` between.
    pub fn read(alloc: Global, line: &str) -> Made {
        let (given, answer) = line.split_once(" -> ").unwrap_or((line, "no arrow"));
        let (words, input) = given.split_once(" < ").unwrap_or((given, ""));
        let mut row = Row::of_lines(alloc, words, "", 0)?;
        row.add(input, answer)?;
        Ok(row)
    }

    /// These words, and the first so many lines of an input.
    pub fn of_lines(alloc: Global, words: &str, lines: &str, count: usize) -> Made {
        let mut row = Row {
            words: words_of(alloc, words, '|')?,
            input: String::new(alloc),
            output: String::new(alloc),
            faults: String::new(alloc),
            status: 0,
        };
        row.add_lines(lines, count)?;
        Ok(row)
    }

    /// Adds the first so many lines to the input, each alone or as `LINE -> ANSWER`.
    pub fn add_lines(&mut self, lines: &str, count: usize) -> Result<(), AllocError> {
        for line in lines.split('\n').take(count) {
            let (input, answer) = line.split_once(" -> ").unwrap_or((line, ""));
            self.add(input, answer)?;
        }
        Ok(())
    }

    /// Adds lines to the input, where behind `hex:` the name of a record stands for its digits, and what they are answered: `S: TEXT` is the
    /// status S and a line of the fault output, and a digit alone that status.
    pub fn add(&mut self, input: &str, answer: &str) -> Result<(), AllocError> {
        for line in input.split_terminator("; ") {
            let (before, name) = line.split_once("hex:").unwrap_or((line, ""));
            let digits = hex::encode(*self.words.allocator(), record(name))?;
            let mark = if digits.is_empty() { "" } else { "hex:" };
            writeln!(self.input, "{before}{mark}{digits}")?;
        }
        for line in answer.split_terminator("; ") {
            let (digit, text) = line.split_once(": ").unwrap_or((line, ""));
            match digit.parse::<u8>() {
                Ok(status) => self.status = status,
                Err(_) => writeln!(self.output, "{line}")?,
            }
            if digit.len() == 1 && !text.is_empty() {
                writeln!(self.faults, "zebraidx: {text}")?;
            }
        }
        Ok(())
    }
}
