//! What a run answers and writes.

use crate::faults::Fault;
use crate::folder::Folder;
use crate::texts::bytes_of;
use std::alloc::{AllocError, Global};

/// What a run answers and writes, or has to.
#[derive(Drop)]
pub struct Outcome {
    pub status: u8,
    pub output: Vec<u8>,
    pub faults: Vec<u8>,
    /// Whether nothing is said of what is written behind this.
    pub is_open: bool,
}

impl Outcome {
    /// This status and output.
    pub fn new(alloc: Global, status: u8, output: Vec<u8>) -> Outcome {
        Outcome {
            status,
            output,
            faults: Vec::new(alloc),
            is_open: false,
        }
    }

    /// What an answer says: lines with `; ` between, or `nothing`. `S: TEXT` is the status S and a line `zebraidx: TEXT`, on the fault output
    /// where words are run, and `status S` that status alone; `below: TEXT` is a line `zebraidx: TEXT` there, whatever is run; `bytes of FILE`
    /// are those, and at `...` lines may follow.
    pub fn read(folder: &Folder, answer: &str, is_words: bool) -> Result<Outcome, Fault> {
        let mut wanted = Outcome::new(folder.alloc, 0, Vec::new(folder.alloc));
        if answer == "nothing" {
            return Ok(wanted);
        }
        for line in answer.split("; ") {
            wanted.add_line(folder, line, is_words)?;
        }
        Ok(wanted)
    }

    fn add_line(&mut self, folder: &Folder, line: &str, is_words: bool) -> Result<(), Fault> {
        if line == "..." {
            self.is_open = true;
            return Ok(());
        }
        if let Some(paths) = line.strip_prefix("bytes of ") {
            self.output.extend_from_slice(&folder.joined(paths)?)?;
            return Ok(());
        }
        if let Some(digit) = line.strip_prefix("status ") {
            return self.raise(digit);
        }
        if let Some(text) = line.strip_prefix("below: ") {
            let line = ["zebraidx: ", text].concat(folder.alloc)?;
            return add_ended(folder.alloc, &mut self.faults, &line);
        }
        let Some((digit, text)) = refusal(line) else {
            return add_ended(folder.alloc, &mut self.output, line);
        };
        self.raise(digit)?;
        let line = ["zebraidx: ", text].concat(folder.alloc)?;
        if is_words {
            add_ended(folder.alloc, &mut self.faults, &line)
        } else {
            add_ended(folder.alloc, &mut self.output, &line)
        }
    }

    /// Whether this may stand behind what is wanted: nothing, but for whole lines where the last wanted one stands.
    pub fn may_go_on(&self, output: &[u8], faults: &[u8]) -> bool {
        let (lines, other) = if self.faults.is_empty() {
            (output, faults)
        } else {
            (faults, output)
        };
        other.is_empty() && (lines.is_empty() || (self.is_open && lines.ends_with(b"\n")))
    }

    /// Has the status be this one, unless it is greater.
    fn raise(&mut self, digit: &str) -> Result<(), Fault> {
        let Ok(status) = digit.parse::<u8>() else {
            return Err(Fault::Line("no status"));
        };
        self.status = self.status.max(status);
        Ok(())
    }
}

/// What was answered and written, for a reader: the first bytes.
pub fn shown(
    alloc: Global,
    status: u8,
    output: &[u8],
    faults: &[u8],
) -> Result<String, AllocError> {
    let output = String::from_utf8_lossy(alloc, output.get(..300).unwrap_or(output))?;
    let faults = String::from_utf8_lossy(alloc, faults.get(..300).unwrap_or(faults))?;
    format!(in alloc; "status {status} {output:?} {faults:?}")
}

/// Adds the bytes of a text, and an LF.
fn add_ended(alloc: Global, to: &mut Vec<u8>, text: &str) -> Result<(), Fault> {
    to.extend_from_slice(&bytes_of(alloc, text)?)?;
    to.push(b'\n')?;
    Ok(())
}

/// The status of a refusal, and its text.
fn refusal(line: &str) -> Option<(&str, &str)> {
    let (digit, text) = line.split_once(": ")?;
    matches!(digit, "0" | "1" | "2" | "3").then_some((digit, text))
}
