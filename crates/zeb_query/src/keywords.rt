//! The keywords of the format, as words of a text.
ghost use Rattle.std.specs.Prelude.{◌≡◌, [], option_map};
ghost use Rattle.zeb_query.specs.Clauses.{operator_word, BooleanOf, connective_of, connective_value, keyword_of, operator_named, word_of};

use crate::words::{Spelling, Word};
use crate::{Connective, Operator};

/// The words with a meaning of their own (YAZ manual, PQF).
#[derive(Clone, Copy, PartialEq, Eq)]
pub enum Keyword {
    /// `@attrset`
    AttributeSet,
    /// `@attr`
    Attribute,
    /// `@term`
    TermType,
    /// `@set`
    ResultSet,
    Operator(OperatorWord),
}

/// The words of operators.
#[derive(Clone, Copy, PartialEq, Eq)]
pub enum OperatorWord {
    And,
    Or,
    Not,
    Proximity,
}

impl OperatorWord {
    /// The operator on sets that the word is; `@prox` is none.
    pub(crate) fn on_sets(self) -> Option<Operator>
        ensures { option_map BooleanOf result ≡ connective_of self [] }
    {
        match self {
            OperatorWord::And => Some(Operator::And),
            OperatorWord::Or => Some(Operator::Or),
            OperatorWord::Not => Some(Operator::Not),
            OperatorWord::Proximity => None,
        }
    }
}

impl Connective {
    /// The word of the operator.
    pub(crate) fn word(&self) -> &'static str
        ensures { result.now ≡ operator_word (operator_named (connective_value self.now)) }
    {
        match self {
            Connective::Boolean(Operator::And) => "@and",
            Connective::Boolean(Operator::Or) => "@or",
            Connective::Boolean(Operator::Not) => "@not",
            Connective::Proximity(_) => "@prox",
        }
    }
}

impl Word {
    /// The keyword that the word is: unquoted, and in lower case.
    pub(crate) fn keyword(&self) -> Option<Keyword>
        ensures { result ≡ keyword_of (word_of self.now) }
    {
        if self.spelling != Spelling::Plain {
            return None;
        }
        match self.text.as_str() {
            "@attrset" => Some(Keyword::AttributeSet),
            "@attr" => Some(Keyword::Attribute),
            "@term" => Some(Keyword::TermType),
            "@set" => Some(Keyword::ResultSet),
            "@and" => Some(Keyword::Operator(OperatorWord::And)),
            "@or" => Some(Keyword::Operator(OperatorWord::Or)),
            "@not" => Some(Keyword::Operator(OperatorWord::Not)),
            "@prox" => Some(Keyword::Operator(OperatorWord::Proximity)),
            _ => None,
        }
    }
}
