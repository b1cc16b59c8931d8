//! Texts: what they fold to, their words and numbers, and patterns; also while a request for memory is refused.

mod samples;

use self::samples::READINGS;
use crate::rows::{add, repeated, rows_hold};
use std::alloc::{AllocError, Global};
use std::test::Fail;
use zeb_text::{
    Cut, Pattern, Spread, fold, join, join_patterns, key_of_number, number_of_key, numbers,
    pattern_words, words,
};

/// What is asked of a text. Of patterns the place and the spread of stars is told first: they are shown as words with stars, joined as their
/// `literal` text or their `prefix`, or it is said whether they, joined, `match` the text behind ` = `.
static ROWS: &str = "\
join moby,dick -> moby dick
join moby -> moby
join  -> nothing
# Keys, there and back.
digits 0 -> 000000000000000000
digits 1851 -> 000000000000001851
digits 999999999999999999 -> 999999999999999999
key 000000000000000000 -> 0
key 000000000000001851 -> 1851
key 999999999999999999 -> 999999999999999999
key  -> none
key 1851 -> none
key 00000000000001851 -> none
key 0000000000000001851 -> none
key +00000000000001851 -> none
key 00000000000000185x -> none
key 0000000000000018\u{661} -> none
# Each place and spread of stars.
patterns right ends Moby d -> moby,d*
patterns none ends ab cd ef -> ab,cd,ef
patterns none each ab cd ef -> ab,cd,ef
patterns right ends ab cd ef -> ab,cd,ef*
patterns right each ab cd ef -> ab*,cd*,ef*
patterns left ends ab cd ef -> *ab,cd,ef
patterns left each ab cd ef -> *ab,*cd,*ef
patterns both ends ab cd ef -> *ab,cd,ef*
patterns both each ab cd ef -> *ab*,*cd*,*ef*
patterns hash ends ab cd ef -> ab,cd,ef
patterns hash each ab cd ef -> ab,cd,ef
patterns both ends ab -> *ab*
patterns both each  , -> nothing
# A `#` parts words, but under Hash.
patterns none ends m#y -> m,y
patterns right ends m#y -> m,y*
patterns left each #m#y# -> *m,*y
patterns both each ## -> nothing
literal none ends Moby, Dick! -> moby dick
literal right ends moby -> star
literal hash ends m#by dick -> star
literal both each m#by dick -> star
prefix none ends Moby, Dick! -> moby dick
prefix right each mo d -> mo
prefix hash ends m#by d# -> m
prefix left ends moby -> nothing
# Whole titles that a query's pattern matches stand in `patterns.rows` of `crates/rows`.
match right each Mo d = moby dick -> true
match left each by ick = moby dick -> true
match both each o i = moby dick -> true
match none each moby dick = moby dick -> true
match none ends  =  -> true
match hash each m#y = moby dicky -> true
match hash each m#y d# = moby dick -> true
match hash each m#y d# = moby rick -> false
match hash ends ## =  -> true
# A search that tried every way to place twenty stars in so long a text would not end.
match hash ends a#a#a#a#a#a#a#a#a#a#a#a#a#a#a#a#a#a#a#a = 5000 * a -> true
match hash ends a#a#a#a#a#a#a#a#a#a#a#a#a#a#a#a#a#a#a#b = 5000 * a -> false
";

fn words_line(alloc: Global, text: &str) -> Result<String, AllocError> {
    words(alloc, text)?.join(alloc, ",")
}

fn numbers_line(alloc: Global, text: &str) -> Result<String, AllocError> {
    let mut listed = String::new(alloc);
    for number in numbers(text) {
        add(&mut listed, ",", &number.to_string(alloc)?)?;
    }
    Ok(listed)
}

/// Puts a part of a reading behind the others.
fn add_part(reading: &mut String, part: &str) -> Result<(), AllocError> {
    reading.push('|')?;
    reading.push_str(part)
}

/// What a text folds to, its words and its numbers.
fn reading(alloc: Global, text: &str) -> Result<String, AllocError> {
    let mut reading = fold(alloc, text)?;
    add_part(&mut reading, &words_line(alloc, text)?)?;
    add_part(&mut reading, &numbers_line(alloc, text)?)?;
    Ok(reading)
}

/// A star, where the pattern matches these parts of a text as one.
fn star(alloc: Global, pattern: &Pattern, parts: [&str; 2]) -> Result<&'static str, AllocError> {
    let is_match = pattern.matches(&parts.concat(alloc)?);
    Ok(if is_match { "*" } else { "" })
}

/// The word, where the pattern matches it, with the stars that the pattern has at its ends: an `x` more there matches only
/// under a star.
fn shown(alloc: Global, pattern: &Pattern, word: &str) -> Result<String, AllocError> {
    let left = star(alloc, pattern, ["x", word])?;
    let right = star(alloc, pattern, [word, "x"])?;
    let middle = if pattern.matches(word) { word } else { "?" };
    format!(in alloc; "{left}{middle}{right}")
}

fn all_shown(alloc: Global, term: &str, patterns: &[Pattern]) -> Result<String, AllocError> {
    let plain = words(alloc, term)?;
    let mut listed = String::new(alloc);
    for (at, pattern) in patterns.iter().enumerate() {
        let word = match plain.get(at) {
            Some(word) => word.as_str(),
            None => "no word",
        };
        add(&mut listed, ",", &shown(alloc, pattern, word)?)?;
    }
    Ok(listed)
}

fn cut_of(name: &str) -> Cut {
    match name {
        "right" => Cut::Right,
        "left" => Cut::Left,
        "both" => Cut::Both,
        "hash" => Cut::Hash,
        _ => Cut::None,
    }
}

fn spread_of(name: &str) -> Spread {
    match name {
        "each" => Spread::Each,
        _ => Spread::Ends,
    }
}

/// Whether a pattern matches a text.
fn match_text(alloc: Global, pattern: &Pattern, text: &str) -> Result<String, AllocError> {
    pattern.matches(&repeated(alloc, text)?).to_string(alloc)
}

/// What is asked of patterns that are joined.
fn of_joined(
    alloc: Global,
    asked: &str,
    patterns: &[Pattern],
    text: &str,
) -> Result<String, AllocError> {
    let pattern = join_patterns(alloc, patterns)?;
    match asked {
        "literal" => String::from_str(alloc, pattern.literal().unwrap_or("star")),
        "prefix" => String::from_str(alloc, pattern.prefix()),
        _ => match_text(alloc, &pattern, text),
    }
}

/// What is asked of the patterns of a term.
fn of_patterns(alloc: Global, asked: &str, text: &str) -> Result<String, AllocError> {
    let (cut, text) = text.split_once(' ').unwrap_or((text, ""));
    let (spread, text) = text.split_once(' ').unwrap_or((text, ""));
    let (term, other) = text.split_once(" = ").unwrap_or((text, ""));
    let patterns = pattern_words(alloc, term, cut_of(cut), spread_of(spread))?;
    match asked {
        "patterns" => all_shown(alloc, term, &patterns),
        _ => of_joined(alloc, asked, &patterns, other),
    }
}

fn answer(alloc: Global, text: &str) -> Result<String, AllocError> {
    let (asked, text) = text.split_once(' ').unwrap_or((text, ""));
    match asked {
        "read" => reading(alloc, text),
        "join" => join(alloc, &words(alloc, text)?),
        "digits" => key_of_number(alloc, text.parse().unwrap_or(0) % 1_000_000_000_000_000_000),
        "key" => match number_of_key(text) {
            Some(number) => number.to_string(alloc),
            None => String::from_str(alloc, "none"),
        },
        _ => of_patterns(alloc, asked, text),
    }
}

#[test]
fn texts_are_read(rt: HostRuntime) -> Result<(), Fail> {
    rows_hold(rt.alloc(), ROWS, answer)
}

#[test]
fn texts_are_read_as_by_another_program(rt: HostRuntime) -> Result<(), Fail> {
    rows_hold(rt.alloc(), READINGS, answer)
}
