//! Numbers written as decimal digits.

ghost use Rattle.std.specs.Prelude.{◌≡◌};
ghost use Rattle.std.specs.Char.{is_ascii_digit};
ghost use Rattle.std.specs.List.{list_all};
ghost use Rattle.zeb_program.specs.Numbers as spec;

/// The greatest number of digits.
const MOST: usize = 9;

fn has_digits_alone(text: &str) -> bool
    ensures { result ≡ list_all is_ascii_digit text.now }
{
    text.bytes().all(|byte| byte.is_ascii_digit())
}

fn is_number(text: &str) -> bool
    ensures { result ≡ spec.is_number text.now }
{
    !text.is_empty() && text.len() <= MOST && has_digits_alone(text)
}

/// The number that a text of 1 to 9 ASCII digits spells, leading zeros included.
pub fn number_of(text: &str) -> Option<u32>
    ensures { result ≡ spec.number_of text.now }
{
    if is_number(text) {
        text.parse().ok()
    } else {
        None
    }
}
