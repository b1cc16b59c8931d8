//! What one line of a profile says: the directives, and how each is read from its words.

ghost use Rattle.std.specs.Prelude.{◌≡◌, List, ℕ, map, IfOk, option_map, string_bytes, option_copied};
ghost use Rattle.zeb_profile.specs.Clauses.{list_all, slice_split, is_ascii_digit, target_key, Gives, words_of, trimmed, target_of, targets_of as targets_in_word, number_of, is_comma, register_of, one_word, two_words, store_of, identifier_of, att_of, melm_of, all_of, directive_of, identifier_told, name_told, path_told, is_all as all_test, is_melm_for as melm_for, targets_in};

use crate::lines::{first_word, trim};
use crate::names::Name;
use crate::{ProfileFaultKind, UnitPattern};
use std::alloc::{AllocError, Global};
use std::collections::BTreeSet;
use std::marker::Model;
use zeb_keys::Register;

/// The most digits of a use attribute's number.
const MOST_DIGITS: usize = 9;

/// One target of a `melm` or `all` line: an index by its name, and a register.
#[derive(Debug, Drop)]
pub struct Target {
    pub name: Name,
    pub register: Register,
}

/// The targets of a line, none twice.
#[derive(Debug, Drop)]
pub struct TargetList {
    items: Vec<Target>,
}

impl Model for TargetList {
    ghost use Rattle.std.specs.Prelude.{List};
    ghost use Rattle.zeb_profile.specs.declared.directives.Target.{Target};

    ghost Value = { List Target };

    ghost view = { λ list. list.items.items };
}

/// The path of the register's file.
#[derive(Debug, Drop)]
pub struct StorePath {
    text: String,
}

impl Model for StorePath {
    ghost use Rattle.std.specs.Prelude.{List, ℕ, string_bytes};

    ghost Value = { List ℕ };

    ghost view = { λ path. string_bytes path.text };
}

/// What one line of a profile says.
#[derive(Debug, Drop)]
pub enum Directive {
    /// `store PATH`: the register's file.
    Store(StorePath),
    /// `identifier PATTERN`: where a record's identifier stands.
    Identifier(UnitPattern),
    /// `att NUMBER NAME`: ties a use attribute to an index.
    Att(u32, Name),
    /// `melm PATTERN TARGETS`: the targets of a field or subfield.
    Melm(UnitPattern, TargetList),
    /// `all TARGETS`: further targets of every unit of a data field.
    All(TargetList),
}

/// A directive and the number of its line, counted from 1.
#[derive(Debug, Drop)]
pub struct Placed {
    pub line: u64,
    pub directive: Directive,
}

impl StorePath {
    pub fn as_str(&self) -> &str
        ensures { result.now ≡ self.now }
    {
        &self.text
    }
}

impl TargetList {
    pub fn as_slice(&self) -> &[Target]
        ensures { result.now ≡ self.now }
    {
        &self.items
    }

    /// Reads targets with commas between. A target is looked up among those to its left by its key, so that the time
    /// for a line grows little faster than the line.
    fn read(alloc: Global, word: &str) -> Result<TargetList, ProfileFaultKind>
        ensures { Gives (λ list. list) result (targets_in_word word.now) }
    {
        let parts = split_commas(alloc, word)?;
        let mut items: Vec<Target> = Vec::new(alloc);
        let mut known: BTreeSet<String> = BTreeSet::new(alloc);
        for part in &parts {
            let target = Target::read(alloc, part)?;
            if !known.insert(target.key(alloc)?)? {
                return Err(ProfileFaultKind::DuplicateTarget);
            }
            items.push(target)?;
        }
        Ok(TargetList { items })
    }
}

fn split_commas(alloc: Global, word: &str) -> Result<Vec<&str>, AllocError>
    ensures { IfOk result
        (λ parts. map (λ part. part.now) parts.items ≡ slice_split is_comma word.now) }
{
    word.split(',').collect(alloc)
}

impl Target {
    /// A text that two targets share just where they are one index and register.
    fn key(&self, alloc: Global) -> Result<String, AllocError>
        ensures { IfOk result (λ key. string_bytes key ≡ target_key self.now) }
    {
        let name = self.name.key(alloc)?;
        let register = self.register;
        format!(in alloc; "{register}{name}")
    }

    /// Reads a target, `NAME` or `NAME:REGISTER`; without a register it is that of words.
    fn read(alloc: Global, part: &str) -> Result<Target, ProfileFaultKind>
        ensures { Gives (λ target. target) result (target_of part.now) }
    {
        match part.split_once(':') {
            None => Ok(Target {
                name: Name::read(alloc, part)?,
                register: Register::Word,
            }),
            Some((name, register)) => Ok(Target {
                name: Name::read(alloc, name)?,
                register: read_register(register)?,
            }),
        }
    }
}

impl Directive {
    /// Reads a line without the blanks at its ends.
    pub fn read(alloc: Global, line: &str) -> Result<Directive, ProfileFaultKind>
        ensures { Gives (λ directive. directive) result (directive_of line.now) }
    {
        let (keyword, rest) = first_word(line).ok_or(ProfileFaultKind::Directive)?;
        match keyword {
            "store" => read_store(alloc, rest),
            "identifier" => read_identifier(rest),
            "att" => read_att(alloc, rest),
            "melm" => read_melm(alloc, rest),
            "all" => read_all(alloc, rest),
            _ => Err(ProfileFaultKind::Directive),
        }
    }

    /// The targets that the line names.
    pub fn targets(&self) -> &[Target]
        ensures { result.now ≡ targets_in self.now }
    {
        match self {
            Directive::Melm(_, targets) => targets.as_slice(),
            Directive::All(targets) => targets.as_slice(),
            _ => &[],
        }
    }

    /// The pattern of an `identifier` line.
    pub fn identifier(&self) -> Option<&UnitPattern>
        ensures { option_copied result ≡ identifier_told self.now }
    {
        match self {
            Directive::Identifier(pattern) => Some(pattern),
            _ => None,
        }
    }

    /// The path of a `store` line.
    pub fn store(&self) -> Option<&str>
        ensures { option_copied result ≡ path_told self.now }
    {
        match self {
            Directive::Store(path) => Some(path.as_str()),
            _ => None,
        }
    }

    /// The name that the line ties to a use attribute.
    pub fn tied_to(&self, number: u32) -> Option<&Name>
        ensures { option_copied result ≡ name_told number self.now }
    {
        match self {
            Directive::Att(tied, name) if *tied == number => Some(name),
            _ => None,
        }
    }

    /// Whether it is a `melm` line that fits a unit.
    pub fn is_melm_for(&self, tag: &[u8; 3], code: Option<u8>) -> bool
        ensures { result ≡ melm_for tag.now code self.now }
    {
        match self {
            Directive::Melm(pattern, _) => pattern.fits(tag, code),
            _ => false,
        }
    }

    pub fn is_all(&self) -> bool
        ensures { result ≡ all_test self.now }
    {
        matches!(self, Directive::All(_))
    }
}

/// The only word of a text.
fn only_word(text: &str) -> Option<&str>
    ensures { option_copied result ≡ one_word (words_of text.now) }
{
    let (word, rest) = first_word(text)?;
    if first_word(rest).is_some() {
        return None;
    }
    Some(word)
}

/// The words of a text that has just two.
fn only_two_words(text: &str) -> Option<(&str, &str)>
    ensures { option_map (λ both. (both.0.now, both.1.now)) result ≡ two_words (words_of text.now) }
{
    let (first, rest) = first_word(text)?;
    let second = only_word(rest)?;
    Some((first, second))
}

/// Reads a use attribute's number: one to [`MOST_DIGITS`] digits that do not stand for 0.
fn read_number(word: &str) -> Result<u32, ProfileFaultKind>
    ensures { result ≡ number_of word.now }
{
    if !are_digits(word.as_bytes()) || word.is_empty() || word.len() > MOST_DIGITS {
        return Err(ProfileFaultKind::Directive);
    }
    match word.parse::<u32>() {
        Ok(number) if number > 0 => Ok(number),
        _ => Err(ProfileFaultKind::Directive),
    }
}

fn are_digits(word: &[u8]) -> bool
    ensures { result ≡ list_all is_ascii_digit word.now }
{
    word.iter().all(|byte| byte.is_ascii_digit())
}

/// Reads a register's letter; `ProfileFaultKind::Register` where the word is none.
fn read_register(word: &str) -> Result<Register, ProfileFaultKind>
    ensures { result ≡ register_of word.now }
{
    match word {
        "w" => Ok(Register::Word),
        "p" => Ok(Register::Phrase),
        "n" => Ok(Register::Number),
        _ => Err(ProfileFaultKind::Register),
    }
}

fn read_store(alloc: Global, rest: &str) -> Result<Directive, ProfileFaultKind>
    ensures { Gives
        (λ directive. directive) result (store_of (words_of rest.now) (trimmed rest.now)) }
{
    first_word(rest).ok_or(ProfileFaultKind::Directive)?;
    Ok(Directive::Store(StorePath {
        text: String::from_str(alloc, trim(rest))?,
    }))
}

fn read_identifier(rest: &str) -> Result<Directive, ProfileFaultKind>
    ensures { Gives (λ directive. directive) result (identifier_of (words_of rest.now)) }
{
    let pattern = only_word(rest).ok_or(ProfileFaultKind::Directive)?;
    Ok(Directive::Identifier(UnitPattern::read(pattern)?))
}

fn read_att(alloc: Global, rest: &str) -> Result<Directive, ProfileFaultKind>
    ensures { Gives (λ directive. directive) result (att_of (words_of rest.now)) }
{
    let (number, name) = only_two_words(rest).ok_or(ProfileFaultKind::Directive)?;
    let number = read_number(number)?;
    Ok(Directive::Att(number, Name::read(alloc, name)?))
}

fn read_melm(alloc: Global, rest: &str) -> Result<Directive, ProfileFaultKind>
    ensures { Gives (λ directive. directive) result (melm_of (words_of rest.now)) }
{
    let (pattern, targets) = only_two_words(rest).ok_or(ProfileFaultKind::Directive)?;
    let pattern = UnitPattern::read(pattern)?;
    Ok(Directive::Melm(pattern, TargetList::read(alloc, targets)?))
}

fn read_all(alloc: Global, rest: &str) -> Result<Directive, ProfileFaultKind>
    ensures { Gives (λ directive. directive) result (all_of (words_of rest.now)) }
{
    let targets = only_word(rest).ok_or(ProfileFaultKind::Directive)?;
    Ok(Directive::All(TargetList::read(alloc, targets)?))
}
