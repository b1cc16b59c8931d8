//! Numbers of ASCII digits.
ghost use Rattle.std.specs.Prelude.{◌≡◌, ◌≤◌, length, true, false, MatchOption, IfSome, ◌<◌};
ghost use Rattle.zeb_marc.specs.Leader.{are_digits, number_of};

/// The number that at most five ASCII digits spell, or `None` where a byte is no digit.
#[tactic(auto, unfolding(crate::specs::Leader::are_digits, crate::specs::Leader::number_of))]
pub(crate) fn read_number(digits: &[u8]) -> Option<usize>
    requires { length digits.now ≤ 5 }
    ensures read { MatchOption result (are_digits digits.now ≡ false)
        (λ n. (are_digits digits.now ≡ true) × (n ≡ number_of digits.now)) }
    ensures below { IfSome result (λ n. n < 100000) }
{
    let mut value = 0;
    for digit in digits {
        if !digit.is_ascii_digit() {
            return None;
        }
        value = value * 10 + usize::from(*digit - b'0');
    }
    Some(value)
}
