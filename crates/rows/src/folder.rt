//! The files that cases run over, and the register that words find at their profile's path.

use crate::faults::Fault;
use crate::layouts::Kept;
use crate::stores::Store;
use command_rows::lines::command_of;
use sqlite::{Connection, MemStore};
use std::alloc::{AllocError, Global};
use std::str;
use zeb_paths::Shelved;

/// The profile of scripts, and of words that name no other.
const PROFILE: &str = "zebra.cfg";

/// A file; without bytes where each read fails.
#[derive(Drop)]
struct Filed {
    path: String,
    bytes: Option<Vec<u8>>,
}

/// Files in memory.
#[derive(Drop)]
pub struct Folder {
    pub alloc: Global,
    files: Vec<Filed>,
    /// Empty where there is none, `new` without tables, `begun` without a record, or the file whose records are kept.
    register: String,
    /// Its layout, where it has one alone.
    kept: Option<Kept>,
    /// What alters the register before words find it.
    statements: Vec<String>,
}

impl Folder {
    /// An empty folder, where no register can be opened.
    pub fn new(alloc: Global) -> Folder {
        Folder {
            alloc,
            files: Vec::new(alloc),
            register: String::new(alloc),
            kept: None,
            statements: Vec::new(alloc),
        }
    }

    /// Has words find this register, not altered; behind the name of a layout, in that one alone.
    pub fn set_register(&mut self, text: &str) -> Result<(), Fault> {
        let (kept, register) = match text.split_once(' ') {
            Some((name, register)) => (Some(Kept::named(name)?), register),
            None => (None, text),
        };
        self.kept = kept;
        self.register = String::from_str(self.alloc, register)?;
        self.set_statements(Vec::new(self.alloc));
        Ok(())
    }

    /// Has these statements alter the register before words find it.
    pub fn set_statements(&mut self, statements: Vec<String>) {
        self.statements = statements;
    }

    /// Adds bytes to a file, which is made where it is absent.
    pub fn add(&mut self, path: &str, bytes: &[u8]) -> Result<(), Fault> {
        let mut whole = Vec::from_slice(self.alloc, self.bytes(path).unwrap_or(&[]))?;
        whole.extend_from_slice(bytes)?;
        self.put(path, Some(whole))
    }

    /// Puts a file there, in the place of one of this path; without bytes each read of it fails.
    pub fn put(&mut self, path: &str, bytes: Option<Vec<u8>>) -> Result<(), Fault> {
        self.files.retain(|file| file.path.as_str() != path);
        let path = String::from_str(self.alloc, path)?;
        self.files.push(Filed { path, bytes })?;
        Ok(())
    }

    /// The bytes of a file.
    pub fn bytes(&self, path: &str) -> Result<&[u8], Fault> {
        for file in &self.files {
            if let (true, Some(bytes)) = (file.path.as_str() == path, &file.bytes) {
                return Ok(bytes.as_slice());
            }
        }
        Err(Fault::Line("no such file"))
    }

    /// The bytes of some files, one behind the other.
    pub fn joined(&self, paths: &str) -> Result<Vec<u8>, Fault> {
        let mut joined = Vec::new(self.alloc);
        for path in paths.split(' ') {
            joined.extend_from_slice(self.bytes(path)?)?;
        }
        Ok(joined)
    }

    /// The input of words: the file `input`, or nothing.
    pub fn input(&self) -> &[u8] {
        self.bytes("input").unwrap_or(&[])
    }

    /// The text of a file.
    pub fn text(&self, path: &str) -> Result<&str, Fault> {
        match str::from_utf8(self.bytes(path)?) {
            Ok(text) => Ok(text),
            Err(_) => Err(Fault::Line("the file is no text")),
        }
    }

    /// The text of the profile.
    pub fn profile(&self) -> Result<&str, Fault> {
        self.text(PROFILE)
    }

    /// The files as paths have them.
    pub fn shelved(&self) -> Result<Vec<Shelved<'_>>, AllocError> {
        let mut shelved = Vec::new(self.alloc);
        for file in &self.files {
            let path = file.path.as_str();
            let bytes = file.bytes.as_ref().map(|bytes| bytes.as_slice());
            shelved.push(Shelved { path, bytes })?;
        }
        Ok(shelved)
    }

    /// The names of the layouts in which words find the register: that which it has alone, or those in which the program begins one. Where
    /// there is none the program takes its first.
    pub fn layouts(&self) -> &'static str {
        match (self.kept, self.register.as_str()) {
            (Some(kept), _) => kept.name(),
            (None, "" | "new") => "packed",
            (None, _) => "packed,leaves",
        }
    }

    /// A new store with the folder's register in it, in this layout and altered, or `None` where no store can be opened.
    pub fn store(&self, kept: Kept) -> Result<Option<Connection<MemStore>>, Fault> {
        let Some(mut connection) = self.register(kept)? else {
            return Ok(None);
        };
        for statement in &self.statements {
            alter(&mut connection, statement)?;
        }
        Ok(Some(connection))
    }

    /// The same, as it was before it was altered.
    fn register(&self, kept: Kept) -> Result<Option<Connection<MemStore>>, Fault> {
        match self.register.as_str() {
            "" => Ok(None),
            "new" => Ok(Some(Store::new(self.alloc)?.take()?)),
            "begun" => Ok(Some(self.begun(kept)?)),
            path => {
                let digits = hex::encode(self.alloc, self.bytes(path)?)?;
                let update = ["update Default hex:", &digits].concat(self.alloc)?;
                Ok(Some(self.filled(kept, &["init", &update])?))
            }
        }
    }

    /// A new store with a register in this layout that holds nothing.
    pub fn begun(&self, kept: Kept) -> Result<Connection<MemStore>, Fault> {
        self.filled(kept, &["init"])
    }

    /// A new store after these commands under the profile, over this layout.
    fn filled(&self, kept: Kept, lines: &[&str]) -> Result<Connection<MemStore>, Fault> {
        let mut store = Store::new(self.alloc)?;
        store.begin(self.alloc, kept, self.profile()?)?;
        for line in lines {
            if store.answer(&command_of(self.alloc, line)?)?.is_err() {
                return Err(Fault::Line("the register is refused"));
            }
        }
        store.take()
    }
}

/// Runs a statement, which has to change some row.
fn alter(connection: &mut Connection<MemStore>, statement: &str) -> Result<(), Fault> {
    match connection.execute(statement, &[]) {
        Ok(count) if count > 0 => Ok(()),
        _ => Err(Fault::Line("a statement that changes nothing")),
    }
}
