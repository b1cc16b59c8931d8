//! Blanks of a line: what stands between them, and the first word.

ghost use Rattle.std.specs.Prelude.{◌≡◌, ◌∷◌, [], IfSome, IfNone, position};
ghost use Rattle.zeb_profile.specs.Clauses.{position_or_len, is_blank as blank_test, without_leading_blanks, without_trailing_blanks, trimmed, words_of, after_word};

/// The blanks of a line: a space and a tab, and no other.
const BLANKS: [char; 2] = [' ', '\t'];

fn trim_start(text: &str) -> &str
    ensures { result.now ≡ without_leading_blanks text.now }
{
    text.trim_start_matches(BLANKS)
}

fn trim_end(text: &str) -> &str
    ensures { result.now ≡ without_trailing_blanks text.now }
{
    text.trim_end_matches(BLANKS)
}

/// The text without the blanks at its ends.
pub(crate) fn trim(text: &str) -> &str
    ensures { result.now ≡ trimmed text.now }
{
    trim_end(trim_start(text))
}

fn is_blank(byte: u8) -> bool
    ensures { result ≡ blank_test byte }
{
    byte == b' ' || byte == b'\t'
}

fn find_blank(bytes: &[u8]) -> Option<usize>
    ensures { result ≡ position blank_test bytes.now }
{
    bytes.iter().position(|byte| is_blank(*byte))
}

fn word_length(bytes: &[u8]) -> usize
    ensures { result ≡ position_or_len blank_test bytes.now }
{
    find_blank(bytes).unwrap_or(bytes.len())
}

/// The first word of a text and what follows it, from the blank on.
pub(crate) fn first_word(text: &str) -> Option<(&str, &str)>
    ensures word { IfSome result (λ cut. words_of text.now ≡ cut.0.now ∷ words_of cut.1.now) }
    ensures rest { IfSome result (λ cut. cut.1.now ≡ after_word text.now) }
    ensures none { IfNone result (words_of text.now ≡ []) }
{
    let start = trim_start(text);
    if start.is_empty() {
        return None;
    }
    Some(start.split_at(word_length(start.as_bytes())))
}
