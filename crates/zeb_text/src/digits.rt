//! The runs of digits of a text, one after the other.
ghost use Rattle.std.specs.Prelude.{◌≡◌, ◌<◌, ◌≤◌, ℕ, [], ◌∷◌, IfNone, IfSome, length, not, slice_index};
ghost use Rattle.std.specs.Char.{is_ascii_digit};
ghost use Rattle.std.specs.List.{AllPass};
ghost use Rattle.std.specs.Str.Parse.{digits_value};
ghost use Rattle.zeb_text.specs.Words.{runs_of};
ghost use Rattle.zeb_text.specs.NumbersLeft.{numbers_left};
ghost use Rattle.std.specs.Iterator.{YieldsFirst, item_count};

/// The most digits of a number that has a key, and those of each key.
pub const KEY_DIGITS: usize = 18;

/// The numbers of a text, as [`numbers`](crate::numbers) finds them. It takes no memory.
#[derive(Drop)]
pub struct Numbers<'a> {
    pub(crate) rest: &'a [u8],
}

impl<'a> Iterator for Numbers<'a> {
    type Item = u64;

    ghost next_gives = { YieldsFirst numbers_left };

    ghost remaining = { item_count numbers_left };

    fn next(&mut self) -> Option<u64> {
        while let Some((digits, rest)) = first_run(self.rest) {
            self.rest = rest;
            if digits.len() <= KEY_DIGITS {
                return Some(value_of(digits));
            }
        }
        None
    }
}

/// The first run of digits, and what follows it.
fn first_run(text: &[u8]) -> Option<(&[u8], &[u8])>
    ensures found { IfSome result
        (λ cut. runs_of is_ascii_digit text.now ≡ cut.0.now ∷ runs_of is_ascii_digit cut.1.now) }
    ensures digits { IfSome result (λ cut. AllPass is_ascii_digit cut.0.now) }
    ensures shorter { IfSome result (λ cut. length cut.1.now < length text.now) }
    ensures none { IfNone result (runs_of is_ascii_digit text.now ≡ []) }
{
    let start = front_len(text, false);
    if start == text.len() {
        return None;
    }
    let (_, from) = text.split_at(start);
    let end = front_len(from, true);
    let (digits, rest) = from.split_at(end);
    Some((digits, rest))
}

/// How many bytes at the front are digits, where `are_digits`; else how many are no digits.
fn front_len(text: &[u8], are_digits: bool) -> usize
    ensures within { result ≤ length text.now }
    ensures front { (k : ℕ) → k < result → is_ascii_digit (slice_index text.now k) ≡ are_digits }
    ensures next { result < length text.now
        → is_ascii_digit (slice_index text.now result) ≡ not are_digits }
{
    for (i, b) in text.iter().enumerate() {
        if b.is_ascii_digit() != are_digits {
            return i;
        }
    }
    text.len()
}

fn value_of(digits: &[u8]) -> u64
    requires short { length digits.now ≤ KEY_DIGITS }
    requires digits { AllPass is_ascii_digit digits.now }
    ensures { result ≡ digits_value 10 digits.now }
{
    let mut value = 0;
    for digit in digits {
        value = value * 10 + u64::from(*digit - b'0');
    }
    value
}
