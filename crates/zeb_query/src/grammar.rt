//! Reading the words of a text as a query, from the left, an operator before its operands.
ghost use Rattle.std.specs.Prelude.{◌≡◌, List, ℕ, suc, ◌∷◌, Some, None, map, OnOk, MatchResult, true, string_bytes, [], option_map};
ghost use Rattle.zeb_query.specs.Clauses.{Attribute as AttributeKeyword, TermType as TermTypeKeyword, Operator as OperatorKeyword, ResultSet as ResultSetKeyword, IsFault, WordOfQuery, word_of, left, first_keyword, fault_of, pair_value, IsSpec, SpellsAttribute, SpellsProximity, SpellsWholeHead, SpellsMore, SpellsOperator, SpellsSet, Spells, SpellsUnder, attribute_value, connective_value, head_value, parameters_value, tree_value, kind_and_value, has_equals, heads, Start, Structures, SetOrSpec, Spec, MoreWords, fault, words_then, first_place, ReadsText, ReadsWord, is_good, Due, fault_at_end, more_structures, Reads, ReadsHead, ReadsStructure, ReadsQuery};

use crate::diagnostics::{Condition, Site};
use crate::digits::short_number;
use crate::keywords::{Keyword, OperatorWord};
use crate::words::{Spelling, Word};
use crate::{Attribute, Connective, Head, Leaf, Parameters, Query, QueryFault, Tree};
use std::alloc::{AllocError, Global};

/// The greatest number of operators in a query, a limit of this project's own.
const MOST_OPERATORS: u32 = 100;

/// The words of a query that aren't read yet.
#[derive(Clone, Copy)]
struct Rest<'a> {
    words: &'a [Word],
    /// The length of the text in bytes, the place of a fault that no word has.
    end: usize,
    /// How many more operators there may be.
    room: u32,
}

impl<'a> Rest<'a> {
    /// The fault that the first of these words is one that no query has here, or that there is none.
    fn unspelled(&self, alloc: Global) -> QueryFault
        ensures { IsFault result (Some (108, first_place self.now.end (left self.now))) }
    {
        let place = match self.words.first() {
            Some(word) => word.place,
            None => self.end,
        };
        Site { alloc, place }.refused(Condition::MalformedQuery)
    }

    /// The first word, whatever it is but a bad one, and what follows it.
    fn word(&self, alloc: Global) -> Result<(&'a Word, Rest<'a>), QueryFault>
        ensures { MatchResult result (λ read. ReadsWord self.now read.1 (word_of read.0.now))
            (λ e. (due : Due) → fault_at_end self.now.end due ≡ Some (108, self.now.end)
            → IsFault e (fault_of self.now due)) }
    {
        match self.words.split_first() {
            Some((word, words)) if word.spelling != Spelling::Bad => {
                Ok((word, Rest { words, ..*self }))
            }
            _ => Err(self.unspelled(alloc)),
        }
    }

    fn keyword(&self) -> Option<Keyword>
        ensures { result ≡ first_keyword (left self.now) }
    {
        self.words.first()?.keyword()
    }
}

/// `query = [ @attrset SET ] structure`, to the end of the words.
pub(crate) fn query(alloc: Global, words: &[Word], end: usize) -> Result<Query, QueryFault>
    ensures { ReadsQuery end (map word_of words.now) result }
{
    let rest = Rest {
        words,
        end,
        room: MOST_OPERATORS,
    };
    let (attrset, rest) = attribute_set_of(alloc, rest)?;
    let (tree, rest) = structure(alloc, rest)?;
    if !rest.words.is_empty() {
        return Err(rest.unspelled(alloc));
    }
    Ok(Query { attrset, tree })
}

/// `[ @attrset SET ]`, where the query begins.
fn attribute_set_of<'a>(
    alloc: Global,
    rest: Rest<'a>,
) -> Result<(Option<String>, Rest<'a>), QueryFault>
    ensures { Reads (λ _. Start) (λ _. Structures 1) rest.entry (λ read. read.1)
        (λ read. SpellsSet rest.entry read.1 (option_map string_bytes read.0)) result }
{
    if rest.keyword() != Some(Keyword::AttributeSet) {
        return Ok((None, rest));
    }
    let (_, after) = rest.word(alloc)?;
    let (text, after) = next_text(alloc, after)?;
    Ok((Some(text), after))
}

/// A term, a named result set, or an operator and its operands, after the attributes and term types that hold for
/// it.
#[cycle(structure)]
fn structure<'a>(alloc: Global, rest: Rest<'a>) -> Result<(Tree, Rest<'a>), QueryFault>
    ensures { ReadsStructure rest.entry
        (λ after tree. Spells rest.entry after (tree_value tree)) result }
{
    let (head, rest) = head_of(alloc, rest)?;
    match rest.keyword() {
        None => term_of(alloc, head, rest),
        Some(Keyword::ResultSet) => named_of(alloc, head, rest),
        Some(Keyword::Operator(operator)) => pair_of(alloc, head, operator, rest),
        Some(_) => Err(rest.unspelled(alloc)),
    }
}

/// The term at the front, under its head.
fn term_of<'a>(alloc: Global, head: Head, rest: Rest<'a>) -> Result<(Tree, Rest<'a>), QueryFault>
    requires { first_keyword (left rest) ≡ None }
    ensures { ReadsStructure rest.entry
        (λ after tree. SpellsUnder rest.entry after (head_value head) (tree_value tree)) result }
{
    let (word, after) = rest.word(alloc)?;
    let place = word.place;
    let text = word.text.clone()?;
    Ok((Tree::Term(Leaf { place, head, text }), after))
}

/// The `@set` at the front and the name after it, under their head.
fn named_of<'a>(alloc: Global, head: Head, rest: Rest<'a>) -> Result<(Tree, Rest<'a>), QueryFault>
    requires { first_keyword (left rest) ≡ Some ResultSetKeyword }
    ensures { ReadsStructure rest.entry
        (λ after tree. SpellsUnder rest.entry after (head_value head) (tree_value tree)) result }
{
    let (word, after) = rest.word(alloc)?;
    let place = word.place;
    let (text, after) = next_text(alloc, after)?;
    Ok((Tree::Named(Leaf { place, head, text }), after))
}

/// The operator at the front and its operands, under their head.
#[cycle(structure)]
fn pair_of<'a>(
    alloc: Global,
    head: Head,
    operator: OperatorWord,
    rest: Rest<'a>,
) -> Result<(Tree, Rest<'a>), QueryFault>
    requires { first_keyword (left rest) ≡ Some (OperatorKeyword operator) }
    ensures { ReadsStructure rest.entry
        (λ after tree. SpellsUnder rest.entry after (head_value head) (tree_value tree)) result }
{
    let (place, connective, after) = connective_of(alloc, operator, rest)?;
    let (left, after) = operand(alloc, after)?;
    let (right, after) = operand(alloc, after)?;
    let tree = Tree::Pair {
        place,
        head,
        connective,
        left,
        right,
    };
    Ok((tree, after))
}

/// The tree at the front, in memory of its own.
#[cycle(structure)]
fn operand<'a>(alloc: Global, rest: Rest<'a>) -> Result<(Box<Tree>, Rest<'a>), QueryFault>
    ensures { ReadsStructure rest.entry
        (λ after tree. Spells rest.entry after (tree_value tree.value)) result }
{
    let (tree, after) = structure(alloc, rest)?;
    Ok((Box::new(alloc, tree)?, after))
}

/// The attributes and term types at the front: `@attr [ SET ] SPEC` and `@term TYPE`, any number of them. Of several
/// term types the last is kept, since the innermost holds.
fn head_of<'a>(alloc: Global, rest: Rest<'a>) -> Result<(Head, Rest<'a>), QueryFault>
    ensures { ReadsHead rest.entry (λ read. read.1)
        (λ read. SpellsWholeHead rest.entry read.1 (head_value read.0)) result }
{
    let mut rest = rest;
    let mut head = Head {
        attributes: Vec::new(alloc),
        term_type: None,
    };
    loop {
        match rest.keyword() {
            Some(Keyword::Attribute) => rest = read_attribute(alloc, &mut head, rest)?,
            Some(Keyword::TermType) => rest = read_term_type(alloc, &mut head, rest)?,
            Some(Keyword::AttributeSet | Keyword::ResultSet | Keyword::Operator(_)) | None => {
                return Ok((head, rest));
            }
        }
    }
}

/// Takes `@attr`, which stands at the front, and its attribute into the head.
fn read_attribute<'a>(
    alloc: Global,
    head: &mut Head,
    rest: Rest<'a>,
) -> Result<Rest<'a>, QueryFault>
    requires { first_keyword (left rest) ≡ Some AttributeKeyword }
    ensures { ReadsHead rest.entry (λ after. after)
        (λ after. SpellsMore rest.entry after (head_value head.old) (head_value head.new)) result }
{
    let (_, after) = rest.word(alloc)?;
    let (attribute, after) = attribute_of(alloc, after)?;
    push_attribute(head, attribute)?;
    Ok(after)
}

/// Puts an attribute inside of all that stand in the head.
fn push_attribute(head: &mut Head, attribute: Attribute) -> Result<(), AllocError>
    ensures { OnOk result (head_value head.new
        ≡ heads (head_value head.old)
        record { attributes = attribute_value attribute ∷ []; term_type = None }) }
{
    head.attributes.push(attribute)?;
    Ok(())
}

/// Takes `@term`, which stands at the front, and its type into the head.
fn read_term_type<'a>(
    alloc: Global,
    head: &mut Head,
    rest: Rest<'a>,
) -> Result<Rest<'a>, QueryFault>
    requires { first_keyword (left rest) ≡ Some TermTypeKeyword }
    ensures { ReadsHead rest.entry (λ after. after)
        (λ after. SpellsMore rest.entry after (head_value head.old) (head_value head.new)) result }
{
    let (_, after) = rest.word(alloc)?;
    let (text, after) = next_text(alloc, after)?;
    head.term_type = Some(text);
    Ok(after)
}

/// `[ SET ] SPEC`, what follows `@attr`: a word without `=` is the set.
fn attribute_of<'a>(alloc: Global, rest: Rest<'a>) -> Result<(Attribute, Rest<'a>), QueryFault>
    ensures { Reads SetOrSpec more_structures rest.entry (λ read. read.1)
        (λ read. SpellsAttribute rest.entry read.1 (attribute_value read.0)) result }
{
    let (word, after) = rest.word(alloc)?;
    if has_equals(word.text.as_str()) {
        let attribute = spec_of(alloc, None, word)?;
        return Ok((attribute, after));
    }
    let set = word.text.clone()?;
    let (spec, after) = after.word(alloc)?;
    let attribute = spec_of(alloc, Some(set), spec)?;
    Ok((attribute, after))
}

/// `SPEC`: 1 to 9 digits, which are the type, then `=`, then the value. That there are at most nine is an own rule.
fn spec_of(alloc: Global, set: Option<String>, word: &Word) -> Result<Attribute, QueryFault>
    requires { is_good (word_of word.now) ≡ true }
    ensures { MatchResult result (λ attribute. IsSpec (word_of word.now)
        (option_map string_bytes set) (attribute_value attribute))
        (λ e. (end room n : ℕ) (more : List WordOfQuery)
        → IsFault e (fault end room (Spec n) (word_of word.now ∷ more))) }
{
    let Some((kind, value)) = kind_and_value(word.text.as_str()) else {
        let place = word.place;
        return Err(Site { alloc, place }.refused(Condition::MalformedQuery));
    };
    let value = String::from_str(alloc, value)?;
    Ok(Attribute { set, kind, value })
}

fn has_equals(text: &str) -> bool
    ensures { result ≡ has_equals text.now }
{
    text.bytes().any(|byte| byte == b'=')
}

/// The type and the value that a word spells, if it is a SPEC.
fn kind_and_value(text: &str) -> Option<(u32, &str)>
    ensures { pair_value result ≡ kind_and_value text.now }
{
    let (kind, value) = text.split_once('=')?;
    let kind = short_number(kind)?;
    if value.is_empty() {
        None
    } else {
        Some((kind, value))
    }
}

/// The operator at the front with its place and its parameters, where there is room for one more operator.
fn connective_of<'a>(
    alloc: Global,
    operator: OperatorWord,
    rest: Rest<'a>,
) -> Result<(usize, Connective, Rest<'a>), QueryFault>
    requires { first_keyword (left rest) ≡ Some (OperatorKeyword operator) }
    ensures { Reads more_structures (λ n. more_structures (suc n)) rest.entry (λ read. read.2)
        (λ read. SpellsOperator rest.entry read.2 operator read.0 (connective_value read.1))
        result }
{
    let (word, after) = rest.word(alloc)?;
    let place = word.place;
    if after.room == 0 {
        return Err(Site { alloc, place }.refused(Condition::TooManyOperators));
    }
    let after = Rest {
        room: after.room - 1,
        ..after
    };
    match operator.on_sets() {
        Some(operator) => Ok((place, Connective::Boolean(operator), after)),
        None => {
            let (parameters, after) = parameters_of(alloc, after)?;
            Ok((place, Connective::Proximity(parameters), after))
        }
    }
}

fn parameters_of<'a>(alloc: Global, rest: Rest<'a>) -> Result<(Parameters, Rest<'a>), QueryFault>
    ensures { Reads (words_then 6) Structures rest.entry (λ read. read.1)
        (λ read. SpellsProximity rest.entry read.1 (parameters_value read.0)) result }
{
    let (exclusion, rest) = next_text(alloc, rest)?;
    let (distance, rest) = next_text(alloc, rest)?;
    let (ordered, rest) = next_text(alloc, rest)?;
    let (relation, rest) = next_text(alloc, rest)?;
    let (which_code, rest) = next_text(alloc, rest)?;
    let (unit_code, rest) = next_text(alloc, rest)?;
    let parameters = Parameters {
        exclusion,
        distance,
        ordered,
        relation,
        which_code,
        unit_code,
    };
    Ok((parameters, rest))
}

/// The text of the next word, whatever that is.
fn next_text<'a>(alloc: Global, rest: Rest<'a>) -> Result<(String, Rest<'a>), QueryFault>
    ensures { MatchResult result (λ read. ReadsText rest.entry read.1 (string_bytes read.0))
        (λ e. (k n : ℕ) → IsFault e (fault_of rest.entry (MoreWords k n))) }
{
    let (word, after) = rest.word(alloc)?;
    Ok((word.text.clone()?, after))
}
