//! The words of a step.

use super::Done;
use std::alloc::Global;
use zeb_keys::{Key, Register, Term};
use zeb_register::{Place, RecordChange, RegFault};

/// What is left of a step, to be read from left to right, and where texts are made. A word that isn't as it should be is refused with
/// `Memory`, which no line waits for.
#[derive(Clone, Copy)]
pub struct Words<'a> {
    pub alloc: Global,
    pub left: &'a str,
}

/// A key, the number of a record, the places of the key that stood there and those that stand there then.
#[derive(Drop)]
pub struct Change {
    pub key: Key,
    pub sysno: u64,
    pub old: Vec<Place>,
    pub new: Vec<Place>,
}

impl Change {
    pub fn of_record(&self) -> RecordChange<'_> {
        RecordChange {
            sysno: self.sysno,
            old: &self.old,
            new: &self.new,
        }
    }
}

impl<'a> Words<'a> {
    /// The next word, empty at the end.
    pub fn word(&mut self) -> &'a str {
        let text = self.left;
        let (word, left) = text.split_once(' ').unwrap_or((text, ""));
        self.left = left;
        word
    }

    pub fn number(&mut self) -> Result<u64, RegFault> {
        number(self.word())
    }

    /// A register as `0:w`: the number of its index, and whether it has words, phrases or numbers.
    pub fn register(&mut self) -> Result<(u32, Register), RegFault> {
        let (index, letter) = self.word().split_once(':').ok_or(RegFault::Memory)?;
        let register = match letter {
            "w" => Register::Word,
            "p" => Register::Phrase,
            "n" => Register::Number,
            _ => return Err(RegFault::Memory),
        };
        Ok((index.parse::<u32>().ok().ok_or(RegFault::Memory)?, register))
    }

    /// A text as `<moby dick>`.
    pub fn term(&mut self) -> Result<&'a str, RegFault> {
        let inner = self.left.strip_prefix('<').ok_or(RegFault::Memory)?;
        let (term, left) = inner.split_once('>').ok_or(RegFault::Memory)?;
        self.left = left.strip_prefix(' ').unwrap_or(left);
        Ok(term)
    }

    /// A key as `0:w <whale>`.
    pub fn key(&mut self) -> Result<Key, RegFault> {
        let (index, register) = self.register()?;
        let term = Term::new(String::from_str(self.alloc, self.term()?)?);
        Ok(Key {
            index,
            register,
            term,
        })
    }

    /// A change as `0:w <whale> 1 - 2.1`.
    pub fn change(&mut self) -> Result<Change, RegFault> {
        let mut change = Change {
            key: self.key()?,
            sysno: 0,
            old: Vec::new(self.alloc),
            new: Vec::new(self.alloc),
        };
        self.read_places(&mut change)?;
        Ok(change)
    }

    /// What stands behind the key of a change.
    fn read_places(&mut self, change: &mut Change) -> Done {
        change.sysno = self.number()?;
        push_places(&mut change.old, self.word())?;
        push_places(&mut change.new, self.word())
    }
}

fn number(text: &str) -> Result<u64, RegFault> {
    text.parse::<u64>().ok().ok_or(RegFault::Memory)
}

/// Puts places as `2.1,3.4`, a unit and a word of it, or `-` where there is none. Of words that follow one another, as `1.1-9`, each is a place.
fn push_places(places: &mut Vec<Place>, text: &str) -> Done {
    if text == "-" {
        return Ok(());
    }
    for part in text.split(',') {
        let (seq, words) = part.split_once('.').ok_or(RegFault::Memory)?;
        let (first, last) = words.split_once('-').unwrap_or((words, words));
        push_words(places, number(seq)?, number(first)?, number(last)?)?;
    }
    Ok(())
}

fn push_words(places: &mut Vec<Place>, seq: u64, first: u64, last: u64) -> Done {
    for pos in first..=last {
        places.push(Place { seq, pos })?;
    }
    Ok(())
}
