//! Cutting a text into words, with their places.
ghost use Rattle.std.specs.Prelude.{◌≡◌, ◌+◌, ◌++◌, ◌∷◌, [], ℕ, List, IfOk, OnOk, map, chars, string_bytes};
ghost use Rattle.zeb_query.specs.Clauses.{len_utf8, words_at, unquoted, is_blank, word_of, words_with};

use std::alloc::{AllocError, Global};

/// How a word of a query's text is written.
#[derive(Clone, Copy, PartialEq, Eq)]
pub enum Spelling {
    Plain,
    /// Between double quotes, so never a keyword.
    Quoted,
    /// A quoted word without end, or one that begins with a brace, by which PQF quotes and this project doesn't.
    Bad,
}

/// A word of a query's text.
#[derive(Drop)]
pub(crate) struct Word {
    /// The position of its first character, the quote included, in bytes from the start of the text.
    pub place: usize,
    pub spelling: Spelling,
    /// The word without its quotes and with its escapes taken.
    pub text: String,
}

/// Where in the text a reader of words stands.
#[derive(Clone, Copy, PartialEq, Eq)]
enum Mode {
    Between,
    Plain,
    Quoted,
    /// Right after a backslash between quotes.
    Escaped,
}

/// The words read so far, and the one that is being read.
#[derive(Drop)]
struct Cutter {
    words: Vec<Word>,
    mode: Mode,
    /// Where the word that is being read begins.
    start: usize,
    /// What that word has so far.
    text: String,
}

impl Cutter {
    /// Takes one more character, which stands at the place.
    fn take(&mut self, alloc: Global, place: usize, c: char) -> Result<(), AllocError>
        ensures { OnOk result ((cs : List ℕ) →
            words_with self.new (place + len_utf8 c) cs ≡ words_with self.old place (c ∷ cs)) }
    {
        match self.mode {
            Mode::Between => self.begin(place, c),
            Mode::Plain => {
                if is_blank(c) {
                    let spelling = unquoted(self.text.as_str());
                    self.finish(alloc, spelling)
                } else {
                    self.text.push(c)
                }
            }
            Mode::Quoted => {
                if c == '"' {
                    self.finish(alloc, Spelling::Quoted)
                } else if c == '\\' {
                    self.mode = Mode::Escaped;
                    Ok(())
                } else {
                    self.text.push(c)
                }
            }
            Mode::Escaped => {
                self.mode = Mode::Quoted;
                self.text.push(c)
            }
        }
    }

    /// Takes a character that stands between words.
    fn begin(&mut self, place: usize, c: char) -> Result<(), AllocError>
        requires { self.old.mode ≡ Mode.Between }
        ensures { OnOk result ((cs : List ℕ) →
            words_with self.new (place + len_utf8 c) cs ≡ words_with self.old place (c ∷ cs)) }
    {
        if is_blank(c) {
            return Ok(());
        }
        self.start = place;
        self.text.clear();
        if c == '"' {
            self.mode = Mode::Quoted;
            Ok(())
        } else {
            self.mode = Mode::Plain;
            self.text.push(c)
        }
    }

    fn finish(&mut self, alloc: Global, spelling: Spelling) -> Result<(), AllocError>
        ensures { OnOk result (
            (map word_of self.new.words.items ≡ map word_of self.old.words.items
            ++ record {
              place = self.old.start;
              spelling = spelling;
              text = string_bytes self.old.text;
            } ∷ [])
            × (self.new.mode ≡ Mode.Between)) }
    {
        let text = std::mem::replace(&mut self.text, String::new(alloc));
        self.mode = Mode::Between;
        self.words.push(Word {
            place: self.start,
            spelling,
            text,
        })?;
        Ok(())
    }

    /// The words of the text that ends here.
    fn into_words(mut self, alloc: Global) -> Result<Vec<Word>, AllocError>
        ensures { IfOk result
            (λ words. (at : ℕ) → map word_of words.items ≡ words_with self at []) }
    {
        match self.mode {
            Mode::Between => {}
            Mode::Plain => {
                let spelling = unquoted(self.text.as_str());
                self.finish(alloc, spelling)?;
            },
            Mode::Quoted | Mode::Escaped => self.finish(alloc, Spelling::Bad)?,
        }
        Ok(self.words)
    }
}

/// Whether a character separates words.
fn is_blank(c: char) -> bool
    ensures { result ≡ is_blank c }
{
    c == ' ' || c == '\t' || c == '\r' || c == '\n'
}

/// How an unquoted word of this text is spelled.
fn unquoted(text: &str) -> Spelling
    ensures { result ≡ unquoted text.now }
{
    if text.starts_with('{') {
        Spelling::Bad
    } else {
        Spelling::Plain
    }
}

/// The words of a query's text, in order. A word that begins with a double quote goes to the next one, and a
/// backslash before that takes the next character as it is; any other word goes to the next blank. These rules of
/// quoting and escaping are this project's own.
pub(crate) fn words_of(alloc: Global, text: &str) -> Result<Vec<Word>, AllocError>
    ensures { IfOk result (λ words. map word_of words.items ≡ words_at 0 (chars text.now)) }
{
    let mut cutter = Cutter {
        words: Vec::new(alloc),
        mode: Mode::Between,
        start: 0,
        text: String::new(alloc),
    };
    let mut place = 0;
    for c in text.chars() {
        cutter.take(alloc, place, c)?;
        place += c.len_utf8();
    }
    cutter.into_words(alloc)
}
