//! Queries, each word with its place in the text. What is said here of places, ranges and values is so of the queries that
//! `read_pqf` gives, by its contract; another caller may build others.
use crate::Operator;

/// An attribute as it stands in a query: `@attr SET TYPE=VALUE` (YAZ manual, PQF).
#[derive(Debug, Drop)]
pub struct Attribute {
    /// The name of the attribute set, where the query gives one.
    pub set: Option<String>,
    /// The attribute's type, 0 to 999,999,999; the limit is this project's own.
    pub kind: u32,
    /// The value as written; never empty.
    pub value: String,
}

/// What stands right before a term, a named result set or an operator, and holds for all of it.
#[derive(Debug, Drop)]
pub struct Head {
    /// The attributes, the outermost first.
    pub attributes: Vec<Attribute>,
    /// The innermost term type, given by `@term`.
    pub term_type: Option<String>,
}

/// A term, or the name of a result set.
#[derive(Debug, Drop)]
pub struct Leaf {
    /// The position of its word, in bytes from the start of the text: of the term itself, or of `@set`.
    pub place: usize,
    /// What stands right before it.
    pub head: Head,
    /// The term or the name, without quotes and with escapes taken.
    pub text: String,
}

/// The six parameters of `@prox`, as written (YAZ manual, PQF).
#[derive(Debug, Drop)]
pub struct Parameters {
    pub exclusion: String,
    pub distance: String,
    pub ordered: String,
    pub relation: String,
    pub which_code: String,
    pub unit_code: String,
}

/// The operators of PQF.
#[derive(Debug, Drop)]
pub enum Connective {
    /// `@and`, `@or`, or `@not`, which is and-not.
    Boolean(Operator),
    /// `@prox`
    Proximity(Parameters),
}

/// A query without its `@attrset` (YAZ manual, PQF): a term, a named result set, or an operator over two of these.
#[derive(Debug, Drop)]
pub enum Tree {
    /// A term.
    Term(Leaf),
    /// A result set, named after `@set`.
    Named(Leaf),
    /// An operator and its two operands.
    Pair {
        /// The position of the operator's word, in bytes from the start of the text.
        place: usize,
        /// What stands right before the operator.
        head: Head,
        /// Which operator it is.
        connective: Connective,
        /// The first operand.
        left: Box<Tree>,
        /// The second operand.
        right: Box<Tree>,
    },
}

/// A query in the Prefix Query Format.
#[derive(Debug, Drop)]
pub struct Query {
    /// The attribute set named after `@attrset`.
    pub attrset: Option<String>,
    /// What the query asks for.
    pub tree: Tree,
}
