//! A register that is open under a profile. What it has is taken apart here alone.

ghost use Rattle.std.specs.Prelude.{◌≡◌, false};

use sqlite::{Alter, Connection};
use std::alloc::Global;
use std::marker::PhantomData;
use zeb_change::Limits;
use zeb_profile::Profile;
use zeb_register::{Layout, Work};

/// A register under a profile. No transaction is open between two commands.
pub struct Session<S: Alter, L: Layout> {
    pub(crate) connection: Connection<S>,
    pub(crate) profile: Profile,
    pub(crate) limits: Limits,
    pub(crate) alloc: Global,
    pub(crate) work: Work,
    pub(crate) layout: PhantomData<L>,
    ghost idle: { connection.in_transaction ≡ false },
}

impl<S: Alter + Drop, L: Layout> Drop for Session<S, L> {
    fn drop(self) {
        let Session {
            connection: _,
            profile: _,
            limits: _,
            alloc: _,
            work: _,
            layout: _,
        } = self;
    }
}

impl<S: Alter, L: Layout> Session<S, L> {
    /// Gives the connection back.
    pub fn release(self) -> Connection<S>
        ensures same { result ≡ self.connection }
        ensures idle { result.in_transaction ≡ false }
    {
        let Session {
            connection,
            profile: _,
            limits: _,
            alloc: _,
            work: _,
            layout: _,
        } = self;
        connection
    }

    /// The same store under another layout. Nothing is done to it, and the work that was counted last stays.
    pub fn to_layout<M: Layout>(self) -> Session<S, M>
        ensures same { (result.connection ≡ self.connection)
            × ((result.profile ≡ self.profile) × (result.limits ≡ self.limits)) }
        ensures counted { result.work ≡ self.work }
    {
        let Session {
            connection,
            profile,
            limits,
            alloc,
            work,
            layout: _,
        } = self;
        Session {
            connection,
            profile,
            limits,
            alloc,
            work,
            layout: PhantomData,
        }
    }
}
