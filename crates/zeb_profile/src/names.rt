//! Names of indexes, in which the case of letters doesn't matter.

ghost use Rattle.std.specs.Prelude.{◌≡◌, List, ℕ, IfOk, string_bytes};
ghost use Rattle.zeb_profile.specs.Clauses.{list_all, name_key, Gives, is_name as name_test, is_name_byte as name_byte_test, name_of, same_name as names_agree};

use crate::ProfileFaultKind;
use std::alloc::{AllocError, Global};
use std::marker::Model;

/// The name of an index as a line spells it: an ASCII letter, then letters, digits, `-` and `_`, at most 64 bytes.
#[derive(Debug, Drop)]
pub struct Name {
    text: String,
}

impl Model for Name {
    ghost use Rattle.std.specs.Prelude.{List, ℕ, string_bytes};

    ghost Value = { List ℕ };

    ghost view = { λ name. string_bytes name.text };
}

impl Name {
    /// Reads a name; `Name` where the word is none.
    pub fn read(alloc: Global, word: &str) -> Result<Name, ProfileFaultKind>
        ensures { Gives (λ name. name) result (name_of word.now) }
    {
        if !is_name(word.as_bytes()) {
            return Err(ProfileFaultKind::Name);
        }
        Ok(Name {
            text: String::from_str(alloc, word)?,
        })
    }

    pub fn as_str(&self) -> &str
        ensures { result.now ≡ self.now }
    {
        &self.text
    }

    /// Whether a text spells the name, ASCII letters compared without regard to their case.
    pub fn is_spelled(&self, text: &str) -> bool
        ensures { result ≡ names_agree text.now self.now }
    {
        text.eq_ignore_ascii_case(&self.text)
    }

    /// The name's letters in lower case: names are the same just where these texts are equal.
    pub fn key(&self, alloc: Global) -> Result<String, AllocError>
        ensures { IfOk result (λ key. string_bytes key ≡ name_key self.now) }
    {
        self.text.to_ascii_lowercase(alloc)
    }

    pub fn copy(&self, alloc: Global) -> Result<Name, AllocError>
        ensures { IfOk result (λ name. name ≡ self.now) }
    {
        Ok(Name {
            text: String::from_str(alloc, &self.text)?,
        })
    }
}

fn is_name_byte(byte: u8) -> bool
    ensures { result ≡ name_byte_test byte }
{
    byte.is_ascii_alphanumeric() || byte == b'-' || byte == b'_'
}

fn is_name(word: &[u8]) -> bool
    ensures { result ≡ name_test word.now }
{
    match word.split_first() {
        None => false,
        Some((first, others)) => {
            first.is_ascii_alphabetic() && are_name_bytes(others) && others.len() < 64
        }
    }
}

fn are_name_bytes(bytes: &[u8]) -> bool
    ensures { result ≡ list_all name_byte_test bytes.now }
{
    bytes.iter().all(|byte| is_name_byte(*byte))
}
