//! What digits count.

ghost use Rattle.std.specs.Prelude.{◌≡◌, ◌≤◌, ◌<◌, ◌^◌, length, min, drop, nat_lt, nat_le, All, true};
ghost use Rattle.sql_text.specs.Number as spec;

/// The number that digits write, or the limit where they write more.
fn number_within(limit: u64, digits: &[u8]) -> u64
    ensures { result ≡ min (spec.number_of digits.now) limit }
{
    let mut number = 0u64;
    for digit in digits {
        let value = u64::from(digit.saturating_sub(b'0'));
        number = number.saturating_mul(10).saturating_add(value).min(limit);
    }
    number
}

/// As many digits as write no number beyond BIGINT, whichever they are.
const FEW_DIGITS: usize = 17;

/// Whether the digits are too few to write more than BIGINT holds.
fn are_few(digits: &[u8]) -> bool
    ensures { result ≡ true → spec.number_of digits.now < 2 ^ 63 }
{
    digits.len() <= FEW_DIGITS
}

/// Whether the number that digits write lies in BIGINT.
#[tactic(auto, unfolding(crate::specs::Number::is_bigint))]
pub(crate) fn is_bigint(digits: &[u8]) -> bool
    ensures { result ≡ spec.is_bigint digits.now }
{
    if are_few(digits) {
        return true;
    }
    number_within(1 << 63, digits) < 1 << 63
}

fn behind_sign(spelled: &[u8]) -> &[u8]
    ensures { result.now ≡ drop 1 spelled.now }
{
    if spelled.is_empty() {
        return spelled;
    }
    &spelled[1..]
}

/// Whether the number that `-` and digits write lies in BIGINT.
#[tactic(auto, unfolding(crate::specs::Number::is_negative_bigint))]
pub(crate) fn is_negative_bigint(spelled: &[u8]) -> bool
    ensures { result ≡ spec.is_negative_bigint spelled.now }
{
    let digits = behind_sign(spelled);
    if are_few(digits) {
        return true;
    }
    number_within((1 << 63) + 1, digits) <= 1 << 63
}

/// The length that digits write; 2,001 stands for each that is greater.
#[tactic(auto, unfolding(crate::specs::Number::length_of))]
pub(crate) fn length_of(digits: &[u8]) -> usize
    ensures { result ≡ spec.length_of digits.now }
{
    number_within(2001, digits) as usize
}
