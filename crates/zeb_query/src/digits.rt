//! Numbers that texts of digits spell.
ghost use Rattle.std.specs.Prelude.{◌≡◌, ◌^◌, ◌<◌, ◌≤◌, IfSome};
ghost use Rattle.zeb_query.specs.Clauses.{list_all, is_ascii_digit, is_number, number_of, few, many};

use zeb_text::KEY_DIGITS;

/// The most digits of an attribute's type and value, of a distance and of a system number, a limit of this project's own.
const FEW: usize = 9;

fn has_digits_alone(text: &str) -> bool
    ensures { result ≡ list_all is_ascii_digit text.now }
{
    text.bytes().all(|byte| byte.is_ascii_digit())
}

/// Whether the text has 1 to `most` ASCII digits and nothing else.
fn is_number(text: &str, most: usize) -> bool
    ensures { result ≡ is_number most text.now }
{
    !text.is_empty() && text.len() <= most && has_digits_alone(text)
}

/// The number that a text of 1 to `most` ASCII digits spells, leading zeros included.
fn number_within(text: &str, most: usize) -> Option<u64>
    requires { most ≤ 18 }
    ensures value { result ≡ number_of most text.now }
    ensures small { IfSome result (λ number. number < 10 ^ most) }
{
    if is_number(text, most) {
        text.parse().ok()
    } else {
        None
    }
}

/// The number that a text of 1 to 9 digits spells.
pub(crate) fn short_number(text: &str) -> Option<u32>
    ensures value { result ≡ number_of few text.now }
    ensures small { IfSome result (λ number. number < 10 ^ few) }
{
    let number = number_within(text, FEW)?;
    Some(number as u32)
}

/// The number that a text of 1 to 18 digits spells.
pub(crate) fn long_number(text: &str) -> Option<u64>
    ensures value { result ≡ number_of many text.now }
    ensures small { IfSome result (λ number. number < 10 ^ many) }
{
    number_within(text, KEY_DIGITS)
}
