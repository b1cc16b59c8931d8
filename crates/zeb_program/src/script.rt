//! A script: the lines of a profile, and after a line `.` those of a batch.

ghost use Rattle.std.specs.Prelude.{◌≡◌, ◌+◌, ◌<◌, ◌^◌, length, IfNone, IfSome};

use crate::words::{cut_line, without_blanks};

/// A script, cut at its first line `.`.
#[derive(Drop)]
pub struct Script<'a> {
    /// The text before the line `.`, or the whole text where there is no such line.
    pub profile: &'a str,
    /// The lines after it.
    pub batch: Option<Batch<'a>>,
}

/// The lines of a batch.
#[derive(Drop)]
pub struct Batch<'a> {
    pub text: &'a str,
    /// How many lines of the input stand before it.
    pub lines_before: u64,
    // A line takes a byte at least, so each line's number fits.
    ghost numbered: { lines_before + length text.now < 2 ^ 64 },
}

impl<'a> Batch<'a> {
    ghost use Rattle.std.specs.Prelude.{false, true};
    ghost use Rattle.zeb_program.specs.Scripts.{BeginsRegister};

    /// Whether a line asks that a register be begun.
    pub fn begins(&self) -> bool
        ensures none { result ≡ false → ¬ BeginsRegister self.now.text.now }
        ensures some { result ≡ true → BeginsRegister self.now.text.now }
    {
        let mut rest = self.text;
        while !rest.is_empty() {
            let (line, after) = cut_line(rest);
            if without_blanks(line) == "init" {
                return true;
            }
            rest = after;
        }
        false
    }
}

impl<'a> Script<'a> {
    ghost use Rattle.zeb_program.specs.Scripts.{DividesAt, HasNoDivider};

    /// Cuts a text at its first line that is `.` but for blanks at its ends.
    pub fn cut(text: &'a str) -> Script<'a>
        ensures undivided { IfNone result.batch (HasNoDivider text.now
            × (result.profile.now ≡ text.now)) }
        ensures divided { IfSome result.batch (λ batch.
            DividesAt batch.lines_before text.now result.profile.now batch.text.now) }
    {
        let mut rest = text;
        let mut lines_before = 0;
        while !rest.is_empty() {
            let (line, after) = cut_line(rest);
            lines_before += 1;
            if without_blanks(line) == "." {
                let (profile, _) = text.split_at(text.len() - rest.len());
                let batch = Batch {
                    text: after,
                    lines_before,
                };
                return Script {
                    profile,
                    batch: Some(batch),
                };
            }
            rest = after;
        }
        Script {
            profile: text,
            batch: None,
        }
    }
}
