//! What digits stand for.

ghost use Rattle.std.specs.Prelude.{◌≡◌, ◌+◌, ◌^◌, min, pos, neg_ℤ};
ghost use Rattle.sql_text.specs.Number.{number_of};
ghost use Rattle.sql_text.specs.Spelled.{number_value};
ghost use Rattle.sql_semantics.specs.Values.{number_given};
ghost use Rattle.sql_predicates.specs.Constant.{constant_value};

use crate::constant::Constant;

/// The number that is spelled with or without a `-`, or NULL past BIGINT.
pub(crate) fn number(spelled: &[u8]) -> Constant
    ensures { constant_value result ≡ number_given (number_value spelled.now) }
{
    match spelled {
        [] => Constant::Number(0),
        [first, digits @ ..] => {
            if *first == b'-' {
                negative(magnitude(digits))
            } else {
                positive(magnitude(spelled))
            }
        }
    }
}

// The number that digits write, or 2^63 + 1 where they write more.
fn magnitude(digits: &[u8]) -> u64
    ensures { result ≡ min (number_of digits.now) (2 ^ 63 + 1) }
{
    let mut number = 0u64;
    for digit in digits {
        let value = u64::from(digit.saturating_sub(b'0'));
        number = number
            .saturating_mul(10)
            .saturating_add(value)
            .min((1 << 63) + 1);
    }
    number
}

#[tactic(auto, unfolding(sql_semantics::specs::Values::number_given))]
fn positive(magnitude: u64) -> Constant
    ensures { constant_value result ≡ number_given (pos magnitude) }
{
    if magnitude >= 1 << 63 {
        return Constant::Null;
    }
    Constant::Number(magnitude as i64)
}

#[tactic(auto, unfolding(sql_semantics::specs::Values::number_given))]
fn negative(magnitude: u64) -> Constant
    ensures { constant_value result ≡ number_given (neg_ℤ (pos magnitude)) }
{
    if magnitude == 0 {
        return Constant::Number(0);
    }
    if magnitude > 1 << 63 {
        return Constant::Null;
    }
    Constant::Number(-((magnitude - 1) as i64) - 1)
}
