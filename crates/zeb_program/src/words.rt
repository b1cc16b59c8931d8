//! Cutting a text into lines, and a line into words.

ghost use Rattle.std.specs.Prelude.{◌≡◌};
ghost use Rattle.std.specs.Str.Lines.{strip_carriage_return};
ghost use Rattle.zeb_program.specs.Lines.{first_line, after_first_line};
ghost use Rattle.zeb_program.specs.Words as spec;

/// The characters that separate words and are dropped at both ends of a line.
const BLANKS: [char; 2] = [' ', '\t'];

/// The first line of a text, without its LF and one CR right before that, and what stands after it.
/// Without an LF the whole text is the line.
pub fn cut_line(text: &str) -> (&str, &str)
    ensures line { result.0.now ≡ first_line text.now }
    ensures rest { result.1.now ≡ after_first_line text.now }
{
    match text.split_once('\n') {
        Some((line, rest)) => (without_cr(line), rest),
        None => (text, ""),
    }
}

fn without_cr(line: &str) -> &str
    ensures { result.now ≡ strip_carriage_return line.now }
{
    line.strip_suffix('\r').unwrap_or(line)
}

/// The first word of a text that begins with no blank, and what stands after the blanks that follow it.
pub fn cut_word(text: &str) -> (&str, &str)
    ensures word { result.0.now ≡ spec.first_word text.now }
    ensures rest { result.1.now ≡ spec.after_first_word text.now }
{
    match text.split_once(BLANKS) {
        Some((word, rest)) => (word, without_leading(rest)),
        None => (text, ""),
    }
}

/// The text without the blanks at its ends.
pub fn without_blanks(text: &str) -> &str
    ensures { result.now ≡ spec.without_blanks text.now }
{
    without_trailing(without_leading(text))
}

fn without_leading(text: &str) -> &str
    ensures { result.now ≡ spec.without_leading text.now }
{
    text.trim_start_matches(BLANKS)
}

fn without_trailing(text: &str) -> &str
    ensures { result.now ≡ spec.without_trailing text.now }
{
    text.trim_end_matches(BLANKS)
}
