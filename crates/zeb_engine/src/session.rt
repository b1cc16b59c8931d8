//! A register that commands are given to.

ghost use Rattle.std.specs.Prelude.{◌≡◌, ◌⊎◌, MatchResult, false, IfErr, IfOk, IsErrAnd, length};
ghost use Rattle.sqlite.specs.Held.{state};
ghost use Rattle.sqlite.specs.State.{HasCleanDisk};
ghost use Rattle.zeb_engine.specs.Counts.{CommandCounts};
ghost use Rattle.zeb_engine.specs.Crashes.{AdoptLasts, CommandLasts, RunLasts};
ghost use Rattle.zeb_engine.specs.Does.{AnswersAnyway, CommandOverTables};
ghost use Rattle.zeb_engine.specs.Headline.{Headline};
ghost use Rattle.zeb_engine.specs.PrivateDone.{CommandDone};
ghost use Rattle.zeb_engine.specs.Sessions.{KeepsConditions, conditions_in};
ghost use Rattle.zeb_engine.specs.Transactions.{CommandHolds};
ghost use Rattle.zeb_engine.specs.Works.{CommandTurns, InTurn, RunHolds, ServesCommand};

use crate::analysis::analyse_files;
use crate::commands::Command;
use crate::find::Question;
use crate::registers::Session;
use crate::renewals::{reindex, upgrade};
use crate::replies::Reply;
use crate::scan::Around;
use crate::tables::make_absent_tables;
use crate::writes::init_register;
use sqlite::{Alter, Connection};
use std::alloc::Global;
use std::marker::PhantomData;
use zeb_change::{Limits, Refusal};
use zeb_profile::Profile;
use zeb_register::{Layout, Work};

mod asking;
mod changing;
mod layouts;
mod writing;

impl<S: Alter, L: Layout> Session<S, L> {
    ghost use Rattle.zeb_engine.specs.Adopting.{HasOtherTables};
    ghost use Rattle.zeb_engine.specs.Costs.{no_work};
    ghost use Rattle.zeb_engine.specs.Taking.{GivesBack, TakesOver};

    /// Takes a store over: the tables of a store that has none are made, and no row changes. No work is counted yet. Refused
    /// (`Store`, `Memory`), it gives the connection back, and the tables are as before. A store with other tables than
    /// this store's six, as that of another program, is refused with `Store` before anything is written.
    pub fn adopt(
        alloc: Global,
        connection: Connection<S>,
        profile: Profile,
        limits: Limits,
    ) -> Result<Session<S, L>, (Connection<S>, Refusal)>
        requires idle { connection.in_transaction ≡ false }
        ensures taken { IfOk result (λ session. HasCleanDisk (state S.Store session.connection)
            → TakesOver (state S.Store connection) (state S.Store session.connection)) }
        ensures given { IfOk result (λ session.
            (session.profile ≡ profile) × (session.limits ≡ limits) × (session.work ≡ no_work)) }
        ensures refused { IfErr result (λ back. (back.0.in_transaction ≡ false)
            × ((back.1 ≡ Refusal.Store) ⊎ (back.1 ≡ Refusal.Memory))
            × (HasCleanDisk (state S.Store back.0)
            → GivesBack (state S.Store connection) (state S.Store back.0) back.1)) }
        // A store of other tables is refused, and nothing is done to it.
        ensures other { HasOtherTables (state S.Store connection)
            → IsErrAnd result (λ back. (back.0 ≡ connection) × (back.1 ≡ Refusal.Store)) }
        // Taken over or refused: a crash leaves what it left before, or the store of the holdings that were there.
        ensures lasts { MatchResult result
            (λ session. AdoptLasts (state S.Store connection) (state S.Store session.connection))
            (λ back. AdoptLasts (state S.Store connection) (state S.Store back.0)) }
    {
        let mut connection = connection;
        if let Err(refusal) = make_absent_tables(&mut connection) {
            return Err((connection, refusal));
        }
        // What is shown is what was committed.
        let _settled = connection.is_autocommit();
        Ok(Session {
            connection,
            profile,
            limits,
            alloc,
            work: Work::default(),
            layout: PhantomData,
        })
    }

    /// The work on the registers that the last command counted. In packed blocks a change, a find, a scan and a stat count theirs. In leaves a
    /// change alone does, and in plain rows nothing is counted. No other command counts any.
    pub fn work(&self) -> Work
        ensures { result ≡ self.now.work }
    {
        self.work
    }

    /// Carries out one command. A command that writes is one transaction; refused, it changes nothing.
    pub fn command(&mut self, command: &Command) -> Result<Reply, Refusal>
        // From tables that keep what a register holds it is answered as a step of a run, and they keep what is held then.
        ensures step { HasCleanDisk (state S.Store self.new.connection)
            → ServesCommand (conditions_in L.format self.old) command.now
            (state S.Store self.old.connection) (state S.Store self.new.connection) result }
        // What it does on any tables, why it is refused there, and that nothing changes then.
        ensures tables { HasCleanDisk (state S.Store self.new.connection)
            → CommandOverTables L.format (conditions_in L.format self.old) command.now
            (state S.Store self.old.connection) (state S.Store self.new.connection) result }
        // Whatever the store and the disk do: an analysis is answered by its files, and only a failure refuses an init.
        ensures answers { AnswersAnyway (conditions_in L.format self.old) command.now result }
        // What it has done to the connection; the session's profile and limits stay.
        ensures holds { CommandHolds S.Store command.now self.old.connection self.new.connection
            result × KeepsConditions self.old self.new }
        // What a crash leaves.
        ensures lasts { CommandLasts L.format (conditions_in L.format self.old) command.now
            (state S.Store self.old.connection) (state S.Store self.new.connection) result }
        // What it has counted. Of an accepted change in packed blocks each of the four counts is the number of changed keys.
        // In leaves the counts are bounded: at most as many leaves count as read, and as written as many and those that come.
        ensures counts { CommandCounts L.format L.row_work L.block_rows
            (conditions_in L.format self.old) command.now (state S.Store self.old.connection)
            (state S.Store self.new.connection) result self.new.work }
    {
        let answer = self.carry_out(command);
        // What is shown is what was committed.
        let _settled = self.connection.is_autocommit();
        answer
    }

    fn carry_out(&mut self, command: &Command) -> Result<Reply, Refusal>
        ensures done { CommandDone S.Store L.format L.row_work L.block_rows
            (conditions_in L.format self.old) command.now self.old.connection self.new.connection
            result self.new.work }
        ensures under { KeepsConditions self.old self.new }
    {
        self.work = Work::default();
        match command {
            Command::Init => {
                init_register::<S, L>(self.alloc, &mut self.connection, &self.profile)
            }
            Command::Create(name) => self.create(name),
            Command::Drop(name) => self.take(name),
            Command::Change {
                kind,
                database,
                files,
            } => self.change(*kind, database, files),
            Command::Find {
                database,
                query,
                first,
                count,
            } => self.find(
                database,
                Question {
                    query: query.as_str(),
                    first: *first,
                    count: *count,
                },
            ),
            Command::Check => self.check(),
            Command::Reindex => reindex::<S, L>(self.alloc, &mut self.connection, &self.profile),
            Command::Upgrade => upgrade::<S, L>(self.alloc, &mut self.connection, &self.profile),
            Command::Stat(name) => self.stat(name),
            Command::Dump(name) => self.dump(name),
            Command::Scan {
                database,
                query,
                number,
                position,
            } => self.scan(
                database,
                Around {
                    query: query.as_str(),
                    number: *number,
                    position: *position,
                },
            ),
            Command::Analyse { files } => {
                analyse_files(self.alloc, &self.profile, self.limits, files)
            }
        }
    }

    /// Carries out commands in turn, also after a refusal, and answers one for each. `Memory` where there is no room
    /// for the answers: nothing was carried out then.
    pub fn run_all(&mut self, commands: &[Command]) -> Result<Vec<Result<Reply, Refusal>>, Refusal>
        // The headline.
        ensures run { IfOk result (λ answers. Headline (conditions_in L.format self.old)
            commands.now answers.items (state S.Store self.old.connection)
            (state S.Store self.new.connection)) }
        ensures count { IfOk result (λ answers. length answers.items ≡ length commands.now) }
        // On any tables each command in turn does what is said of one command, on what the one before it left.
        ensures turns { HasCleanDisk (state S.Store self.new.connection)
            → IfOk result (λ answers. InTurn S.Store
            (CommandTurns L.format L.row_work L.block_rows (conditions_in L.format self.old))
            commands.now answers.items self.old.connection self.old.work self.new.connection
            self.new.work) }
        // What it has done to the connection; the session's profile and limits stay.
        ensures holds { (HasCleanDisk (state S.Store self.new.connection)
            → IfOk result (λ answers. RunHolds commands.now answers.items
            (state S.Store self.old.connection) (state S.Store self.new.connection)))
            × KeepsConditions self.old self.new }
        // What a crash leaves.
        ensures lasts { RunLasts (conditions_in L.format self.old) commands.now
            (state S.Store self.old.connection) (state S.Store self.new.connection) result }
        ensures memory { IfErr result (λ refusal.
            (refusal ≡ Refusal.Memory) × (self.new.connection ≡ self.old.connection)) }
    {
        let Ok(mut answers) = Vec::with_capacity(self.alloc, commands.len()) else {
            return Err(Refusal::Memory);
        };
        for command in commands {
            answers.push_reserved(self.command(command));
        }
        // What is shown is what was committed.
        let _settled = self.connection.is_autocommit();
        Ok(answers)
    }
}
