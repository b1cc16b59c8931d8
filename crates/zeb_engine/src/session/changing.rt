//! The commands of a session that change a database by records.

ghost use Rattle.std.specs.Prelude.{◌≡◌, ℕ, Vec};
ghost use Rattle.std.specs.declared.alloc.Global.{Global};
ghost use Rattle.sqlite.specs.Held.{state};
ghost use Rattle.sqlite.specs.State.{HasCleanDisk};
ghost use Rattle.zeb_image.specs.NameOf.{name_bytes};
ghost use Rattle.zeb_engine.specs.Costs.{no_work};
ghost use Rattle.zeb_engine.specs.FromReaders.{Give, NamesFaults, ReadersChange, ReadersCount, ReadersLast};
ghost use Rattle.zeb_engine.specs.PrivateDone.{CommandDone, ReadersDone};
ghost use Rattle.zeb_engine.specs.Sessions.{KeepsConditions, conditions_in};
ghost use Rattle.zeb_engine.specs.Steps.{TakesFiles};
ghost use Rattle.zeb_engine.specs.Transactions.{CallHolds};
ghost use Rattle.zeb_engine.specs.Works.{ServesBy};

use crate::changes::change_database;
use crate::commands::Command;
use crate::readiness::check_ready;
use crate::registers::Session;
use crate::replies::Reply;
use sqlite::Alter;
use zeb_change::{Kind, Refusal, Setting, check_readers};
use zeb_image::DbName;
use zeb_marc::{Slice, Source};
use zeb_register::{Layout, Work};

impl<S: Alter, L: Layout> Session<S, L> {
    /// Changes a database by files that are given as their bytes.
    pub(super) fn change(
        &mut self,
        kind: Kind,
        database: &DbName,
        files: &[Vec<u8>],
    ) -> Result<Reply, Refusal>
        requires fresh { self.old.work ≡ no_work }
        ensures done { (given : Vec (Vec ℕ Global) Global) → given.items ≡ files.now
            → CommandDone S.Store L.format L.row_work L.block_rows (conditions_in L.format self.old)
            (Command.Change kind database.now given) self.old.connection self.new.connection result
            self.new.work }
        ensures under { KeepsConditions self.old self.new }
    {
        let mut readers = Vec::with_capacity(self.alloc, files.len())?;
        for file in files {
            readers.push_reserved(Slice::new(file));
        }
        self.change_from(database, kind, &mut readers)
    }

    /// Changes a database by the records that the readers give, one held at a time. Refused, it changes nothing, and
    /// nothing is said of what the readers have left.
    pub fn update_from<R: Source>(
        &mut self,
        database: &DbName,
        kind: Kind,
        readers: &mut [R],
    ) -> Result<Reply, Refusal>
        // From tables that keep what a register holds it is answered as a step of a run, and they keep what is held then.
        ensures step { HasCleanDisk (state S.Store self.new.connection)
            → Give R.remaining R.has_failed readers.old readers.new
            (λ texts. ServesBy (TakesFiles (conditions_in L.format self.old) kind
            (name_bytes database.now) texts) (state S.Store self.old.connection)
            (state S.Store self.new.connection) result) }
        // What it does on any tables, and whatever the readers tell.
        ensures tables { HasCleanDisk (state S.Store self.new.connection)
            → ReadersChange R.remaining R.has_failed readers.old readers.new
            (conditions_in L.format self.old) kind (name_bytes database.now)
            (state S.Store self.old.connection) (state S.Store self.new.connection) result }
        // A reader that fails is named, and none that can't.
        ensures faults { NamesFaults R.may_fail R.has_failed readers.old readers.new result }
        // What it has done to the connection; the session's profile and limits stay.
        ensures holds { CallHolds (state S.Store self.old.connection)
            (state S.Store self.new.connection) result × KeepsConditions self.old self.new }
        // What a crash leaves.
        ensures lasts { ReadersLast R.remaining R.has_failed readers.old readers.new
            (conditions_in L.format self.old) kind (name_bytes database.now)
            (state S.Store self.old.connection) (state S.Store self.new.connection) result }
        // What it has counted, as a command that is a change.
        ensures counts { ReadersCount R.remaining R.has_failed readers.old readers.new
            (conditions_in L.format self.old) kind (name_bytes database.now)
            (state S.Store self.old.connection) (state S.Store self.new.connection) result L.format
            L.row_work self.new.work }
    {
        let answer = self.change_from(database, kind, readers);
        // What is shown is what was committed.
        let _settled = self.connection.is_autocommit();
        answer
    }

    fn change_from<R: Source>(
        &mut self,
        database: &DbName,
        kind: Kind,
        readers: &mut [R],
    ) -> Result<Reply, Refusal>
        ensures done { ReadersDone S.Store R.remaining R.may_fail R.has_failed readers.old
            readers.new L.format L.row_work (conditions_in L.format self.old) kind
            (name_bytes database.now) self.old.connection self.new.connection result self.new.work }
        ensures under { KeepsConditions self.old self.new }
    {
        self.work = Work::default();
        check_readers(readers)?;
        check_ready::<S, L>(&mut self.connection, &self.profile)?;
        // Its profile is some text's.
        self.profile.is_of_some_text();
        let setting = Setting {
            alloc: self.alloc,
            profile: &self.profile,
            limits: self.limits,
            kind,
        };
        change_database::<S, L, R>(
            &mut self.connection,
            &mut self.work,
            setting,
            database,
            readers,
        )
    }
}
