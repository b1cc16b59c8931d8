//! A store in memory, whose tables have one of the layouts.

use crate::faults::Fault;
use crate::layouts::Kept;
use command_rows::sessions::adopted;
use sqlite::{Connection, MemStore};
use std::alloc::Global;
use std::mem;
use zeb_engine::{Command, Limits, Refusal, Reply, Session};
use zeb_leaves::Leaves;
use zeb_packed::Blocks;
use zeb_profile::Profile;
use zeb_register::{Rows, Work};

/// A store, and the session that has it, if there is one.
#[derive(Drop)]
pub enum Store {
    /// It was taken out.
    Taken,
    Free(Connection<MemStore>),
    Plain(Session<MemStore, Rows>),
    Packed(Session<MemStore, Blocks>),
    Leaves(Session<MemStore, Leaves>),
}

impl Store {
    /// A store without a table.
    pub fn new(alloc: Global) -> Result<Store, Fault> {
        match Connection::open_in_memory(alloc) {
            Ok(connection) => Ok(Store::Free(connection)),
            Err(_) => Err(Fault::Line("no store could be opened")),
        }
    }

    /// Ends the session, and takes the connection out.
    pub fn take(&mut self) -> Result<Connection<MemStore>, Fault> {
        match mem::replace(self, Store::Taken) {
            Store::Taken => Err(Fault::Line("no store")),
            Store::Free(connection) => Ok(connection),
            Store::Plain(session) => Ok(session.release()),
            Store::Packed(session) => Ok(session.release()),
            Store::Leaves(session) => Ok(session.release()),
        }
    }

    /// Begins a session of this layout under a profile; there is none where the store is refused.
    pub fn begin(&mut self, alloc: Global, kept: Kept, profile: &str) -> Result<(), Fault> {
        let connection = self.take()?;
        if Profile::read(alloc, profile).is_err() {
            return Err(Fault::Line("the profile is refused"));
        }
        let limits = Limits::GREATEST;
        *self = match kept {
            Kept::Plain => match adopted(alloc, connection, profile, limits) {
                Ok(session) => Store::Plain(session),
                Err(connection) => Store::Free(connection),
            },
            Kept::Packed => match adopted(alloc, connection, profile, limits) {
                Ok(session) => Store::Packed(session),
                Err(connection) => Store::Free(connection),
            },
            Kept::Leaves => match adopted(alloc, connection, profile, limits) {
                Ok(session) => Store::Leaves(session),
                Err(connection) => Store::Free(connection),
            },
        };
        Ok(())
    }

    /// What the session answers to a command.
    pub fn answer(&mut self, command: &Command) -> Result<Result<Reply, Refusal>, Fault> {
        match self {
            Store::Plain(session) => Ok(session.command(command)),
            Store::Packed(session) => Ok(session.command(command)),
            Store::Leaves(session) => Ok(session.command(command)),
            _ => Err(Fault::Line("a command without a session")),
        }
    }

    /// What the session counted for its last command.
    pub fn work(&self) -> Work {
        match self {
            Store::Plain(session) => session.work(),
            Store::Packed(session) => session.work(),
            Store::Leaves(session) => session.work(),
            _ => Work::default(),
        }
    }
}
