//! What quoted texts and pairs of digits stand for.

ghost use Rattle.std.specs.Prelude.{◌≡◌, ◌<◌, ◌%◌, ◌+◌, ◌*◌, ◌==◌, ◌++◌, IfOk, IfSome, MatchOption, drop, length, map, position};
ghost use Rattle.sql_text.specs.Spelled.{bytes_of_pairs, digit_value, undoubled};

use std::alloc::{AllocError, Global};

/// A text, in which a doubled quote is one. It is copied by the runs between doubled quotes.
pub(crate) fn undoubled(alloc: Global, spelled: &[u8]) -> Result<Vec<u8>, AllocError>
    ensures { IfOk result (λ text. text.items ≡ undoubled spelled.now) }
{
    let mut text = Vec::with_capacity(alloc, spelled.len())?;
    let mut rest = spelled;
    'runs: while let Some((run, after)) = first_run(rest) {
        text.extend_from_slice(run)?;
        rest = after;
    }
    text.extend_from_slice(rest)?;
    Ok(text)
}

// What stands up to the first quote and with it, and what stands behind the second half of that one.
#[tactic(auto, using(crate::proofs::Runs::one_run, crate::proofs::Runs::no_run, crate::proofs::Runs::shorter))]
fn first_run<'a>(spelled: &'a [u8]) -> Option<(&'a [u8], &'a [u8])>
    ensures value { MatchOption result (undoubled spelled.now ≡ spelled.now) (λ x. undoubled spelled.now ≡ x.0.now ++ undoubled x.1.now) }
    ensures shorter { IfSome result (λ x. length x.1.now < length spelled.now) }
{
    let Some(at) = first_quote(spelled) else {
        return None;
    };
    let (run, after) = spelled.split_at(at + 1);
    Some((run, behind_first(after)))
}

fn first_quote(spelled: &[u8]) -> Option<usize>
    ensures value { result ≡ position (λ b. b == 39) spelled.now }
    ensures within { IfSome result (λ at. at < length spelled.now) }
{
    spelled.iter().position(|b| *b == b'\'')
}

fn behind_first<'a>(bytes: &'a [u8]) -> &'a [u8]
    ensures { result.now ≡ drop 1 bytes.now }
{
    match bytes {
        [] => bytes,
        [_, rest @ ..] => rest,
    }
}

/// Bytes, of two hexadecimal digits each.
pub(crate) fn bytes_of_pairs(alloc: Global, pairs: &[u8]) -> Result<Vec<u8>, AllocError>
    ensures { IfOk result (λ bytes. bytes.items ≡ map (λ b. b % 256) (bytes_of_pairs pairs.now)) }
{
    let mut bytes = Vec::with_capacity(alloc, pairs.len() / 2)?;
    let mut rest = pairs;
    'parts: while let [high, low, after @ ..] = rest {
        bytes.push(byte_of(*high, *low))?;
        rest = after;
    }
    Ok(bytes)
}

fn byte_of(high: u8, low: u8) -> u8
    ensures { result ≡ (digit_value high * 16 + digit_value low) % 256 }
{
    let sum = u32::from(digit_value(high)) * 16 + u32::from(digit_value(low));
    (sum % 256) as u8
}

fn digit_value(digit: u8) -> u8
    ensures { result ≡ digit_value digit }
{
    if digit < 58 {
        digit.saturating_sub(48)
    } else if digit < 71 {
        digit - 55
    } else {
        digit.saturating_sub(87)
    }
}
