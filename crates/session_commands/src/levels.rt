//! Manager levels.

ghost use Rattle.std.specs.Prelude.{◌≡◌, ◌<◌, ◌++◌, OnErr, OnOk, IfSome, MatchOption, length, take, vec_len};
ghost use Rattle.session_commands.specs.Levels.{highest, level_for, levels_for, agreed_on, agreed_after, nothing_agreed};

use crate::session::Agreed;
use ddm_objects::code_point;
use std::alloc::AllocError;

/// Before any MGRLVLLS nothing is agreed on.
pub(crate) fn none_agreed() -> Agreed
    ensures { result ≡ nothing_agreed }
{
    Agreed {
        unicode: false,
        xa: 0,
    }
}

fn highest(manager: u16) -> u16
    ensures { result ≡ highest manager }
{
    match manager {
        code_point::AGENT => 7,
        code_point::SQLAM => 7,
        code_point::RDB => 7,
        code_point::SECMGR => 7,
        code_point::CMNTCPIP => 5,
        code_point::XAMGR => 7,
        _ => 0,
    }
}

#[tactic(auto, unfolding(crate::specs::Levels::level_for))]
fn level_of(manager: u16, asked: u16) -> u16
    ensures { result ≡ level_for manager asked }
{
    if manager == code_point::UNICODEMGR {
        return if asked == 1208 { 1208 } else { 0 };
    }
    asked.min(highest(manager))
}

/// Appends the levels that are answered to those that were asked, and leaves out what is no whole
/// entry at their end.
pub(crate) fn push_levels(out: &mut Vec<u8>, asked: &[u8]) -> Result<(), AllocError>
    ensures ok { OnOk result (out.new.items ≡ out.old.items ++ levels_for asked.now) }
    ensures err { OnErr result (take (vec_len out.old) out.new.items ≡ out.old.items) }
{
    let mut left = asked;
    'entries: while let [a, b, c, d, more @ ..] = left {
        let level = level_of(u16::from_be_bytes([*a, *b]), u16::from_be_bytes([*c, *d]));
        let [high, low] = level.to_be_bytes();
        out.extend_from_slice(&[*a, *b, high, low])?;
        left = more;
    }
    Ok(())
}

#[tactic(auto, unfolding(crate::specs::Levels::agreed_on))]
fn agree(agreed: Agreed, manager: u16, level: u16) -> Agreed
    ensures { result ≡ agreed_on agreed manager level }
{
    match manager {
        code_point::UNICODEMGR => Agreed {
            unicode: level == 1208,
            ..agreed
        },
        code_point::XAMGR => Agreed {
            xa: level,
            ..agreed
        },
        _ => agreed,
    }
}

// One entry, and what follows it.
fn agreed_with(agreed: Agreed, asked: &[u8]) -> Option<(Agreed, &[u8])>
    ensures agreed { MatchOption result (agreed_after agreed asked.now ≡ agreed) (λ x. agreed_after agreed asked.now ≡ agreed_after x.0 x.1.now) }
    ensures shorter { IfSome result (λ x. length x.1.now < length asked.now) }
{
    let [a, b, c, d, more @ ..] = asked else {
        return None;
    };
    let level = level_of(u16::from_be_bytes([*a, *b]), u16::from_be_bytes([*c, *d]));
    Some((agree(agreed, u16::from_be_bytes([*a, *b]), level), more))
}

/// What is agreed on after these levels were asked.
pub(crate) fn agreed_by(asked: &[u8]) -> Agreed
    ensures { result ≡ agreed_after nothing_agreed asked.now }
{
    let mut agreed = none_agreed();
    let mut left = asked;
    'entries: while let Some((next, more)) = agreed_with(agreed, left) {
        agreed = next;
        left = more;
    }
    agreed
}
