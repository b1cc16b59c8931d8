//! The layout that a session's register keeps.

ghost use Rattle.std.specs.Prelude.{◌≡◌};
ghost use Rattle.sqlite.specs.Held.{state};
ghost use Rattle.sqlite.specs.State.{HasCleanDisk, Survives};
ghost use Rattle.zeb_register.specs.Formats.{version_of};
ghost use Rattle.zeb_engine.specs.Causes.{OnlyLooks};
ghost use Rattle.zeb_engine.specs.Readiness.{TellsVersion};
ghost use Rattle.zeb_engine.specs.Sessions.{KeepsConditions};
ghost use Rattle.zeb_engine.specs.Transactions.{CallHolds};

use crate::looks::keeps_text;
use crate::readiness::VERSION;
use crate::registers::Session;
use sqlite::Alter;
use zeb_change::Refusal;
use zeb_register::Layout;

impl<S: Alter, L: Layout> Session<S, L> {
    /// Whether the store keeps the version of the layout `M`. Before an `init` it keeps none. The session's profile isn't asked for.
    /// `Damaged` where the version can't be read.
    pub fn keeps_layout<M: Layout>(&mut self) -> Result<bool, Refusal>
        ensures tells { HasCleanDisk (state S.Store self.new.connection)
            → TellsVersion (version_of M.format) (state S.Store self.old.connection) result }
        ensures looks { HasCleanDisk (state S.Store self.new.connection)
            → OnlyLooks (state S.Store self.old.connection) (state S.Store self.new.connection)
            result }
        // What it has done to the connection; the session's profile and limits stay.
        ensures holds { CallHolds (state S.Store self.old.connection)
            (state S.Store self.new.connection) result × KeepsConditions self.old self.new }
        // A crash leaves what it left before.
        ensures lasts { Survives (state S.Store self.old.connection)
            (state S.Store self.new.connection) (λ _. ⊥) }
        ensures counted { self.new.work ≡ self.old.work }
    {
        let answer = keeps_text(&mut self.connection, VERSION, M::version());
        // What is shown is what was committed.
        let _settled = self.connection.is_autocommit();
        answer
    }
}
