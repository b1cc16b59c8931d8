//! Numbers as texts: those of a text, and the key of a number.
ghost use Rattle.std.specs.Prelude.{◌≡◌, ◌^◌, ◌<◌, ◌≢◌, ℕ, IfOk, IfSome, IfNone, chars, string_bytes};
ghost use Rattle.zeb_text.specs.Numbers.{number_key, numbers_of};
ghost use Rattle.zeb_text.specs.NumbersLeft.{numbers_left};

use crate::digits::{KEY_DIGITS, Numbers};
use std::alloc::{AllocError, Global};

/// The numbers of the text in order: the values of the maximal runs of ASCII digits in the text as it is, not folded. A
/// run of more than 18 digits is passed over as a whole. No memory is taken.
pub fn numbers(text: &str) -> Numbers<'_>
    ensures { numbers_left result ≡ numbers_of (chars text.now) }
{
    Numbers {
        rest: text.as_bytes(),
    }
}

/// The key of a number below 10^18: 18 digits, with leading zeros. Keys are ordered, byte by byte, as their numbers are.
pub fn key_of_number(alloc: Global, number: u64) -> Result<String, AllocError>
    requires { number < 10 ^ 18 }
    ensures { IfOk result (λ key. string_bytes key ≡ number_key number) }
{
    format!(in alloc; "{number:018}")
}

/// The number of which `key` is the key; `None` for a text that is no key, which is one of other than 18 ASCII digits.
/// No memory is taken.
pub fn number_of_key(key: &str) -> Option<u64>
    ensures found { IfSome result (λ number. (number < 10 ^ 18) × (key.now ≡ number_key number)) }
    ensures none { IfNone result ((number : ℕ) → number < 10 ^ 18 → key.now ≢ number_key number) }
{
    if key.len() != KEY_DIGITS || !key.bytes().all(|b| b.is_ascii_digit()) {
        return None;
    }
    key.parse::<u64>().ok()
}
