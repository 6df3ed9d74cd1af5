//! Access to the database: ACCSEC, SECCHK and ACCRDB.

ghost use Rattle.std.specs.Prelude.{◌≡◌, IfOk, OnErr, take, vec_len};
ghost use Rattle.session_commands.specs.Access as spec;
ghost use Rattle.session_commands.specs.Replies.{rdb_not_found};
ghost use Rattle.drda_commands.specs.Views.{occurs_of};
ghost use Rattle.session_commands.specs.Views.{IsAppended};

use crate::answer::Answer;
use crate::reply::{
    severity_of, write_accrdbrm, write_accsecrd, write_accsecrd_refused, write_rdb_not_found,
    write_secchkrm,
};
use crate::session::Session;
use crate::settings::Settings;
use drda_commands::{Mechanism, Occurs, Stage};
use drda_names::{is_name, is_padded_name};
use sqlam_replies::ReplyKind;
use std::alloc::AllocError;

fn is_ours(settings: &Settings, unicode: bool, name: Occurs<'_>) -> bool
    ensures { result ≡ spec.is_ours settings.now unicode (occurs_of name.entry) }
{
    match name {
        Occurs::Never => true,
        Occurs::Once(name) => is_padded_name(unicode, name, settings.rdb()),
        Occurs::Twice => false,
    }
}

fn bytes_of(occurs: Occurs<'_>) -> &[u8]
    ensures { result.now ≡ spec.bytes_of (occurs_of occurs.entry) }
{
    match occurs {
        Occurs::Once(value) => value,
        Occurs::Never | Occurs::Twice => &[],
    }
}

fn mechanism_for(value: &[u8]) -> Option<Mechanism>
    ensures { result ≡ spec.mechanism_for value.now }
{
    let [high, low] = value else {
        return None;
    };
    if *high == 0 && *low == 3 {
        return Some(Mechanism::UserAndPassword);
    }
    if *high == 0 && *low == 4 {
        return Some(Mechanism::UserOnly);
    }
    None
}

fn not_found(session: Session, name: Occurs<'_>, out: &mut Vec<u8>) -> Result<Answer, AllocError>
    ensures ok { IfOk result (λ a. IsAppended a out.old.items out.new.items (record { session = session; reply = rdb_not_found (spec.bytes_of (occurs_of name.entry)) })) }
    ensures err { OnErr result (take (vec_len out.old) out.new.items ≡ out.old.items) }
{
    write_rdb_not_found(out, bytes_of(name))?;
    Ok(Answer {
        session,
        kind: ReplyKind::Message,
        severity: 8,
    })
}

fn asked_for(
    session: Session,
    mechanism: Option<Mechanism>,
    out: &mut Vec<u8>,
) -> Result<Answer, AllocError>
    ensures ok { IfOk result (λ a. IsAppended a out.old.items out.new.items (spec.asked_for session mechanism)) }
    ensures err { OnErr result (take (vec_len out.old) out.new.items ≡ out.old.items) }
{
    let session = match mechanism {
        Some(mechanism) => {
            write_accsecrd(out, mechanism)?;
            Session {
                stage: Stage::MechanismChosen(mechanism),
                ..session
            }
        }
        None => {
            write_accsecrd_refused(out)?;
            session
        }
    };
    Ok(Answer {
        session,
        kind: ReplyKind::Object,
        severity: 0,
    })
}

/// ACCSEC: agrees on a mechanism. A database that is not this one is RDBNFNRM, before the answer to a
/// mechanism that there is not, which lists those that there are and leaves the stage.
pub(crate) fn accsec(
    settings: &Settings,
    session: Session,
    mechanism: Occurs<'_>,
    rdb: Occurs<'_>,
    out: &mut Vec<u8>,
) -> Result<Answer, AllocError>
    ensures ok { IfOk result (λ a. IsAppended a out.old.items out.new.items (spec.accsec_done settings.now session (occurs_of mechanism.entry) (occurs_of rdb.entry))) }
    ensures err { OnErr result (take (vec_len out.old) out.new.items ≡ out.old.items) }
{
    if is_ours(settings, session.agreed.unicode, rdb) {
        asked_for(session, mechanism_for(bytes_of(mechanism)), out)
    } else {
        not_found(session, rdb, out)
    }
}

fn is_mechanism(mechanism: Mechanism, other: Option<Mechanism>) -> bool
    ensures { result ≡ spec.is_mechanism mechanism other }
{
    match (mechanism, other) {
        (Mechanism::UserAndPassword, Some(Mechanism::UserAndPassword)) => true,
        (Mechanism::UserOnly, Some(Mechanism::UserOnly)) => true,
        _ => false,
    }
}

fn is_agreed(stage: Stage, value: &[u8]) -> bool
    ensures { result ≡ spec.is_agreed stage value.now }
{
    match stage {
        Stage::MechanismChosen(mechanism) => is_mechanism(mechanism, mechanism_for(value)),
        Stage::Fresh | Stage::Known | Stage::Checked | Stage::Opened => false,
    }
}

fn wants_password(stage: Stage) -> bool
    ensures { result ≡ spec.wants_password stage }
{
    match stage {
        Stage::MechanismChosen(Mechanism::UserAndPassword) => true,
        Stage::MechanismChosen(Mechanism::UserOnly)
        | Stage::Fresh
        | Stage::Known
        | Stage::Checked
        | Stage::Opened => false,
    }
}

fn code_of_user(settings: &Settings, unicode: bool, user: Occurs<'_>, right: u8) -> u8
    ensures { result ≡ spec.code_of_user settings.now unicode (occurs_of user.entry) right }
{
    match user {
        Occurs::Once(name) if is_name(unicode, name, settings.user()) => right,
        Occurs::Once(_) => 0x13,
        Occurs::Never | Occurs::Twice => 0x12,
    }
}

fn code_of_password(settings: &Settings, unicode: bool, password: Occurs<'_>) -> u8
    ensures { result ≡ spec.code_of_password settings.now unicode (occurs_of password.entry) }
{
    match password {
        Occurs::Once(word) if is_name(unicode, word, settings.password()) => 0,
        Occurs::Once(_) => 0x0F,
        Occurs::Never | Occurs::Twice => 0x10,
    }
}

/// The code of SECCHKRM, the first that holds: 01 another mechanism than the agreed one, 12 no user, 13
/// an unknown one, and where the mechanism wants one 10 no password, 0F a wrong one; else 00. A
/// password is compared byte by byte to its end, whichever byte differs first.
pub(crate) fn check_code(
    settings: &Settings,
    session: Session,
    mechanism: Occurs<'_>,
    user: Occurs<'_>,
    password: Occurs<'_>,
) -> u8
    ensures { result ≡ spec.check_code settings.now session (occurs_of mechanism.entry) (occurs_of user.entry) (occurs_of password.entry) }
{
    if !is_agreed(session.stage, bytes_of(mechanism)) {
        return 0x01;
    }
    let unicode = session.agreed.unicode;
    let right = if wants_password(session.stage) {
        code_of_password(settings, unicode, password)
    } else {
        0
    };
    code_of_user(settings, unicode, user, right)
}

/// SECCHK with its code: where it is 00 the user is checked, and else the stage stays.
pub(crate) fn checked(session: Session, code: u8, out: &mut Vec<u8>) -> Result<Answer, AllocError>
    ensures ok { IfOk result (λ a. IsAppended a out.old.items out.new.items (spec.checked_with session code)) }
    ensures err { OnErr result (take (vec_len out.old) out.new.items ≡ out.old.items) }
{
    write_secchkrm(out, code)?;
    let stage = if code == 0 {
        Stage::Checked
    } else {
        session.stage
    };
    Ok(Answer {
        session: Session { stage, ..session },
        kind: ReplyKind::Message,
        severity: severity_of(code),
    })
}

/// ACCRDB: opens the database, or answers RDBNFNRM where it is not this one.
pub(crate) fn accrdb(
    settings: &Settings,
    session: Session,
    rdb: Occurs<'_>,
    out: &mut Vec<u8>,
) -> Result<Answer, AllocError>
    ensures ok { IfOk result (λ a. IsAppended a out.old.items out.new.items (spec.accrdb_done settings.now session (occurs_of rdb.entry))) }
    ensures err { OnErr result (take (vec_len out.old) out.new.items ≡ out.old.items) }
{
    if !is_ours(settings, session.agreed.unicode, rdb) {
        return not_found(session, rdb, out);
    }
    write_accrdbrm(out, session.agreed.unicode)?;
    Ok(Answer {
        session: Session {
            stage: Stage::Opened,
            ..session
        },
        kind: ReplyKind::Message,
        severity: 0,
    })
}
