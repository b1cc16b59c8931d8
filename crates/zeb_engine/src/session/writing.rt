//! The commands of a session that make and drop databases.

ghost use Rattle.std.specs.Prelude.{◌≡◌};
ghost use Rattle.zeb_engine.specs.Costs.{no_work};
ghost use Rattle.zeb_engine.specs.PrivateDone.{CommandDone};
ghost use Rattle.zeb_engine.specs.Sessions.{KeepsConditions, conditions_in};

use crate::commands::Command;
use crate::readiness::check_ready;
use crate::registers::Session;
use crate::replies::Reply;
use crate::writes::{create_database, drop_database};
use sqlite::Alter;
use zeb_change::Refusal;
use zeb_image::DbName;
use zeb_register::Layout;

impl<S: Alter, L: Layout> Session<S, L> {
    /// An empty database, on a register that is ready.
    pub(super) fn create(&mut self, name: &DbName) -> Result<Reply, Refusal>
        requires fresh { self.old.work ≡ no_work }
        ensures done { CommandDone S.Store L.format L.row_work L.block_rows
            (conditions_in L.format self.old) (Command.Create name.now) self.old.connection
            self.new.connection result self.new.work }
        ensures under { KeepsConditions self.old self.new }
    {
        check_ready::<S, L>(&mut self.connection, &self.profile)?;
        create_database::<S, L>(&mut self.connection, name)
    }

    /// No database of this name any more, on a register that is ready.
    pub(super) fn take(&mut self, name: &DbName) -> Result<Reply, Refusal>
        requires fresh { self.old.work ≡ no_work }
        ensures done { CommandDone S.Store L.format L.row_work L.block_rows
            (conditions_in L.format self.old) (Command.Drop name.now) self.old.connection
            self.new.connection result self.new.work }
        ensures under { KeepsConditions self.old self.new }
    {
        check_ready::<S, L>(&mut self.connection, &self.profile)?;
        drop_database::<S, L>(self.alloc, &mut self.connection, name)
    }
}
