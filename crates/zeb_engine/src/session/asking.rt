//! What a session is asked, and answers without a change.

ghost use Rattle.std.specs.Prelude.{◌≡◌, ◌+◌, ◌∷◌, ◌++◌, [], ℕ, List, Ok, String, length, string_bytes};
ghost use Rattle.std.specs.declared.alloc.Global.{Global};
ghost use Rattle.zeb_engine.specs.Analysed.{HasLines};
ghost use Rattle.zeb_engine.specs.Costs.{no_work};
ghost use Rattle.zeb_engine.specs.PrivateDone.{CommandDone};
ghost use Rattle.zeb_engine.specs.Sessions.{KeepsConditions, conditions_in};

use crate::analysis::no_lines;
use crate::commands::Command;
use crate::dump::dump;
use crate::find::{Question, find};
use crate::readiness::check_ready;
use crate::registers::Session;
use crate::replies::Reply;
use crate::scan::{Around, scan};
use crate::stat::stat;
use sqlite::Alter;
use zeb_analysis::AnalysedLines;
use zeb_change::Refusal;
use zeb_image::{DbName, is_image};
use zeb_register::Layout;

impl<S: Alter, L: Layout> Session<S, L> {
    /// Finds the records of a query, on a register that is ready.
    pub(super) fn find(
        &mut self,
        database: &DbName,
        question: Question<'_>,
    ) -> Result<Reply, Refusal>
        requires fresh { self.old.work ≡ no_work }
        ensures done { (query : String Global) → string_bytes query ≡ question.entry.query.now
            → CommandDone S.Store L.format L.row_work L.block_rows (conditions_in L.format self.old)
            (Command.Find database.now query question.entry.first question.entry.count)
            self.old.connection self.new.connection result self.new.work }
        ensures under { KeepsConditions self.old self.new }
    {
        // Its profile is some text's.
        self.profile.is_of_some_text();
        check_ready::<S, L>(&mut self.connection, &self.profile)?;
        find::<S, L>(
            self.alloc,
            &mut self.connection,
            &mut self.work,
            &self.profile,
            database,
            question,
        )
    }

    /// Terms around a start, on a register that is ready.
    pub(super) fn scan(&mut self, database: &DbName, around: Around<'_>) -> Result<Reply, Refusal>
        requires fresh { self.old.work ≡ no_work }
        ensures done { (query : String Global) → string_bytes query ≡ around.entry.query.now
            → CommandDone S.Store L.format L.row_work L.block_rows (conditions_in L.format self.old)
            (Command.Scan database.now query around.entry.number around.entry.position)
            self.old.connection self.new.connection result self.new.work }
        ensures under { KeepsConditions self.old self.new }
    {
        // Its profile is some text's.
        self.profile.is_of_some_text();
        check_ready::<S, L>(&mut self.connection, &self.profile)?;
        scan::<S, L>(
            self.alloc,
            &mut self.connection,
            &mut self.work,
            &self.profile,
            database,
            around,
        )
    }

    /// How much a database holds, on a register that is ready.
    pub(super) fn stat(&mut self, name: &DbName) -> Result<Reply, Refusal>
        requires fresh { self.old.work ≡ no_work }
        ensures done { CommandDone S.Store L.format L.row_work L.block_rows
            (conditions_in L.format self.old) (Command.Stat name.now) self.old.connection
            self.new.connection result self.new.work }
        ensures under { KeepsConditions self.old self.new }
    {
        // Its profile is some text's.
        self.profile.is_of_some_text();
        check_ready::<S, L>(&mut self.connection, &self.profile)?;
        stat::<S, L>(
            self.alloc,
            &mut self.connection,
            &mut self.work,
            &self.profile,
            name,
        )
    }

    /// What a database keeps, on a register that is ready.
    pub(super) fn dump(&mut self, name: &DbName) -> Result<Reply, Refusal>
        requires fresh { self.old.work ≡ no_work }
        ensures done { CommandDone S.Store L.format L.row_work L.block_rows
            (conditions_in L.format self.old) (Command.Dump name.now) self.old.connection
            self.new.connection result self.new.work }
        ensures under { KeepsConditions self.old self.new }
    {
        // Its profile is some text's.
        self.profile.is_of_some_text();
        check_ready::<S, L>(&mut self.connection, &self.profile)?;
        dump::<S, L>(self.alloc, &mut self.connection, name)
    }

    /// Whether the tables of a register that is ready are the image of what it holds: `Damaged` where they aren't.
    pub(super) fn check(&mut self) -> Result<Reply, Refusal>
        requires fresh { self.old.work ≡ no_work }
        ensures done { CommandDone S.Store L.format L.row_work L.block_rows
            (conditions_in L.format self.old) Command.Check self.old.connection self.new.connection
            result self.new.work }
        ensures under { KeepsConditions self.old self.new }
    {
        // A register that isn't ready is refused as such, whatever its tables hold.
        check_ready::<S, L>(&mut self.connection, &self.profile)?;
        if is_image::<S, L>(self.alloc, &mut self.connection, &self.profile)? {
            Ok(Reply::Done)
        } else {
            Err(Refusal::Damaged)
        }
    }

    /// The lines of no file, before the first is analysed: files are analysed one after the other, so that one is held at a time, and
    /// what comes is printed as `Command::Analyse` of all of them is. The store is asked for nothing.
    pub fn begin_analysis(&self) -> Result<AnalysedLines, Refusal>
        ensures { HasLines self.now.profile self.now.limits.records [] result }
    {
        no_lines(self.alloc, &self.profile)
    }

    /// The lines with those of one more file's records behind them, under the session's profile and limits. A refusal is that of
    /// `Command::Analyse` of the files so far, and then there are no lines any more.
    ///
    /// `file`: its number, one more than there were files before.
    pub fn analyse_file(
        &self,
        lines: AnalysedLines,
        file: u64,
        bytes: &[u8],
    ) -> Result<AnalysedLines, Refusal>
        ensures { (texts : List (List ℕ)) → file ≡ length texts + 1
            → HasLines self.now.profile self.now.limits.records texts (Ok lines)
            → HasLines self.now.profile self.now.limits.records (texts ++ bytes.now ∷ []) result }
    {
        let limit = self.limits.records;
        Ok(lines.with_file(self.alloc, &self.profile, limit, file, bytes)?)
    }
}
