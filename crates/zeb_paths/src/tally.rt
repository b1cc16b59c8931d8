//! How many records have been read, for whoever waits at a terminal.

ghost use Rattle.std.specs.Prelude.{◌≡◌};

use std::cell::Cell;
use std::io::Write;

/// The byte that a record ends with.
const RECORD_END: u8 = 0x1d;

/// After so many records the number is shown again.
const STEP: u64 = 1_000;

/// Counts records as the bytes of files pass, and shows the number on standard error: one line, which is rewritten until the files are
/// dropped, and ends then.
#[derive(Drop)]
pub struct Tally<'a> {
    rt: &'a HostRuntime,
    shows: bool,
    count: Cell<u64>,
}

impl<'a> Tally<'a> {
    /// A tally of no record yet. It counts and shows nothing where it isn't to, as where standard error is no terminal.
    pub fn new(rt: &'a HostRuntime, shows: bool) -> Tally<'a>
        ensures { (result.rt ≡ rt.entry) × (result.shows ≡ shows) }
    {
        let count = Cell::new(0);
        Tally { rt, shows, count }
    }

    /// Counts the records that end in these bytes.
    pub(crate) fn pass(&self, bytes: &[u8]) {
        if !self.shows {
            return;
        }
        for byte in bytes {
            if *byte == RECORD_END {
                self.count_record();
            }
        }
    }

    /// Counts a record, and shows a whole thousand, however many bytes pass at a time: a change passes a record's, an analysis thousands.
    fn count_record(&self) {
        let count = self.count.get().saturating_add(1);
        self.count.set(count);
        if count % STEP == 0 {
            self.show('\r');
        }
    }

    /// Ends the line, where there is one, with the number as it is, so that what is written next has a line of its own. Then it counts
    /// from 0 again.
    pub(crate) fn end(&self) {
        if self.count.get() >= STEP {
            self.show('\n');
        }
        self.count.set(0);
    }

    /// Writes the number. Nothing rests on it, so a write that fails is passed over.
    fn show(&self, end: char) {
        let count = self.count.get();
        let _written = write!(self.rt.stderr(), "{count} records{end}");
    }
}
