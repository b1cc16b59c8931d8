//! Plans: what a query asks for of the registers, and where a scan begins. What is said here of ranges and texts is so of the plans that
//! `plan` and `plan_scan` give, by their contracts; another caller may build others.
use zeb_keys::Register;
use zeb_text::Pattern;

/// An operator over two sets of records.
#[derive(Clone, Copy, Debug, PartialEq, Eq)]
pub enum Operator {
    /// The records of both.
    And,
    /// The records of either.
    Or,
    /// The records of the left one that aren't in the right one.
    Not,
}

/// How an entry stands to a term (Bib-1, relation attributes 1 to 5).
#[derive(Clone, Copy, Debug, PartialEq, Eq)]
pub enum Relation {
    /// 1: the entry comes before the term.
    Less,
    /// 2: it comes before the term or is the term.
    LessOrEqual,
    /// 3: it is the term.
    Equal,
    /// 4: it is the term or comes after it.
    GreaterOrEqual,
    /// 5: it comes after the term.
    Greater,
}

/// What a term asks for, with indexes by their number in the profile. `zeb_search` says on which records it holds, and is proved
/// to find just these.
#[derive(Debug, Drop)]
pub enum TermPlan {
    /// The record with this system number, 0 to 999,999,999: what this project takes a local number for.
    RecordNumber(u32),
    /// No record: words are what is looked for in the register of the index, and the term has none.
    NoWords {
        index: u32,
        register: Register,
    },
    /// The records that have any entry in the register of the index.
    Always {
        index: u32,
        register: Register,
    },
    /// The records with a number, in the register of numbers, that stands in the relation to this one, which is below
    /// 10^18.
    Number {
        index: u32,
        relation: Relation,
        number: u64,
    },
    /// The records with an entry that stands in the relation to the term's words, joined by one space, in the order of their
    /// bytes. The relation is never [`Relation::Equal`]: equality asks for patterns.
    Ordered {
        index: u32,
        register: Register,
        relation: Relation,
        start: String,
    },
    /// The records with a whole phrase that matches the pattern.
    Complete {
        index: u32,
        pattern: Pattern,
    },
    /// The records with words, one after another in one unit, that match the patterns in order; `first` asks that
    /// they begin with the unit's first word. No record where there is no pattern.
    Phrase {
        index: u32,
        patterns: Vec<Pattern>,
        first: bool,
    },
    /// The records in which each pattern matches some word. No record where there is no pattern.
    AllWords {
        index: u32,
        patterns: Vec<Pattern>,
    },
    /// The records in which some pattern matches some word.
    AnyWord {
        index: u32,
        patterns: Vec<Pattern>,
    },
}

/// How the number of words from one word to another stands to a distance (ANSI/NISO Z39.50-2003, the relations of the
/// proximity operator, 1 to 6).
#[derive(Clone, Copy, Debug, PartialEq, Eq)]
pub enum DistanceRelation {
    /// 1: it is less.
    Less,
    /// 2: it is less or the same.
    LessOrEqual,
    /// 3: it is the same.
    Equal,
    /// 4: it is the same or greater.
    GreaterOrEqual,
    /// 5: it is greater.
    Greater,
    /// 6: it is another one.
    NotEqual,
}

/// How two words of one unit stand to each other.
#[derive(Clone, Copy, Debug, PartialEq, Eq)]
pub struct Separation {
    /// In words, 0 to 999,999,999; neighbours are at distance 1.
    pub distance: u32,
    /// Whether the left word has to stand before the right one.
    pub ordered: bool,
    /// How the number of words from the one to the other stands to the distance.
    pub relation: DistanceRelation,
}

/// Two words of one unit of an index, each of which its pattern matches, that stand so to each other.
#[derive(Debug, Drop)]
pub struct NearPlan {
    /// The number of the index in the profile, whose words are asked.
    pub index: u32,
    /// The pattern of the word that stands first in the query.
    pub left: Pattern,
    /// The pattern of the other word.
    pub right: Pattern,
    /// How the two words stand to each other; they are two, also where the patterns are one.
    pub separation: Separation,
}

/// A query over a profile, ready to be evaluated.
#[derive(Debug, Drop)]
#[cycle(plan)]
pub enum Plan {
    /// What one term asks for.
    Term(TermPlan),
    /// An operator over two plans.
    Pair(Box<PairPlan>),
    /// The records with two words near each other.
    Near(NearPlan),
}

/// An operator and the plans of its two operands.
#[derive(Debug, Drop)]
#[cycle(plan)]
pub struct PairPlan {
    /// The operator on the records of the two.
    pub operator: Operator,
    /// The operand that stands first in the query.
    pub left: Plan,
    /// The other one.
    pub right: Plan,
}

/// Where a scan of a register begins.
#[derive(Debug, Drop)]
pub struct ScanPlan {
    /// The number of the index in the profile.
    pub index: u32,
    /// The register of the index that is read.
    pub register: Register,
    /// The entry to begin with, which need not be there; empty for the first one.
    pub start: String,
}
