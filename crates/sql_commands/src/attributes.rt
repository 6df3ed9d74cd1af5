//! The words of SQLATTR.

ghost use Rattle.std.specs.Prelude.{◌≡◌, ◌&&◌, codes};
ghost use Rattle.std.specs.Str.{str_eq_ignore_ascii_case};
ghost use Rattle.drda_commands.specs.Values.{attributes_in};
ghost use Rattle.drda_commands.specs.Views.{given_of};
ghost use Rattle.command_kit.specs.Text as spec;

use drda_commands::Accepted;

fn is_blank(byte: u8) -> bool
    ensures { result ≡ spec.is_blank byte }
{
    matches!(byte, b' ' | b'\t' | b'\n' | b'\r')
}

fn is_with(word: &[u8]) -> bool
    ensures { result ≡ str_eq_ignore_ascii_case word.now (codes "WITH") }
{
    word.eq_ignore_ascii_case(b"WITH")
}

// Whether a word is the HOLD of WITH HOLD.
fn ends_with_hold(is_behind_with: bool, word: &[u8]) -> bool
    ensures { result ≡ (is_behind_with && str_eq_ignore_ascii_case word.now (codes "HOLD")) }
{
    is_behind_with && word.eq_ignore_ascii_case(b"HOLD")
}

// Whether WITH stands there as a word, and HOLD as the next one.
fn has_with_hold(text: &[u8]) -> bool
    ensures { result ≡ spec.has_with_hold (spec.words text.now) }
{
    let mut is_behind_with = false;
    for word in text.split(|byte| is_blank(*byte)) {
        if word.is_empty() {
            continue;
        }
        if ends_with_hold(is_behind_with, word) {
            return true;
        }
        is_behind_with = is_with(word);
    }
    false
}

// Whether the cursors of a statement that is prepared so are held over a commit.
pub(crate) fn is_held(accepted: &Accepted<'_>) -> bool
    ensures { result ≡ spec.is_held_by (attributes_in (given_of accepted.now.given)) }
{
    match accepted.attributes() {
        Some(text) => has_with_hold(text),
        None => false,
    }
}
