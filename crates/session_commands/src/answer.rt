//! Commands that are answered at once: those that come before SQL's, and refused ones.

ghost use Rattle.std.specs.Prelude.{◌≡◌, IfOk, OnErr, take, vec_len};
ghost use Rattle.std.specs.Option.{option_copied};
ghost use Rattle.drda_commands.specs.Views.{given_of};
ghost use Rattle.session_commands.specs.Access as spec;
ghost use Rattle.session_commands.specs.Views.{IsAppended};

use crate::access::{accrdb, accsec, check_code, checked};
use crate::levels::agreed_by;
use crate::reply::{write_excsatrd, write_manager_missing, write_refusal};
use crate::session::{Agreed, Session};
use crate::settings::Settings;
use ddm_objects::code_point;
use drda_commands::{Command, Given, ItemKind, Refusal, Stage};
use sqlam_replies::ReplyKind;
use std::alloc::AllocError;

/// A reply whose text stands elsewhere, and what is remembered then.
#[derive(Clone, Copy)]
pub struct Answer {
    /// What is remembered then, but for the command's chain.
    pub session: Session,
    /// The kind of its DSS.
    pub kind: ReplyKind,
    /// Its severity: 0 INFO, 8 ERROR.
    pub severity: u16,
}

#[inline(always)]
fn known_from(stage: Stage) -> Stage
    ensures { result ≡ spec.known_from stage }
{
    match stage {
        Stage::Fresh => Stage::Known,
        Stage::Known | Stage::MechanismChosen(_) | Stage::Checked | Stage::Opened => stage,
    }
}

#[inline(always)]
fn agreed_anew(agreed: Agreed, asked: Option<&[u8]>) -> Agreed
    ensures { result ≡ spec.agreed_anew agreed (option_copied asked.entry) }
{
    match asked {
        Some(asked) => agreed_by(asked),
        None => agreed,
    }
}

#[inline(always)]
fn excsat(session: Session, asked: Option<&[u8]>, out: &mut Vec<u8>) -> Result<Answer, AllocError>
    ensures ok { IfOk result (λ a. IsAppended a out.old.items out.new.items (spec.excsat_done session (option_copied asked.entry))) }
    ensures err { OnErr result (take (vec_len out.old) out.new.items ≡ out.old.items) }
{
    write_excsatrd(out, asked)?;
    Ok(Answer {
        session: Session {
            stage: known_from(session.stage),
            agreed: agreed_anew(session.agreed, asked),
            ..session
        },
        kind: ReplyKind::Object,
        severity: 0,
    })
}

// MGRDEPRM for a SYNCCTL, where no level of XAMGR is agreed on.
fn manager_missing(session: Session, out: &mut Vec<u8>) -> Result<Answer, AllocError>
    ensures ok { IfOk result (λ a. IsAppended a out.old.items out.new.items (spec.manager_is_missing session)) }
    ensures err { OnErr result (take (vec_len out.old) out.new.items ≡ out.old.items) }
{
    write_manager_missing(out)?;
    Ok(Answer {
        session,
        kind: ReplyKind::Message,
        severity: 8,
    })
}

/// A command that is answered without the database.
#[derive(Clone, Copy)]
pub enum AtOnce {
    /// It agrees on levels.
    Excsat,
    /// It agrees on a mechanism, or lists those that there are.
    Accsec,
    /// It has checked the user exactly where its code is 00.
    Secchk,
    /// It opens the database.
    Accrdb,
    /// A SYNCCTL without an agreement on XAMGR: MGRDEPRM.
    ManagerMissing,
}

impl AtOnce {
    /// Which of these a command is; None of one that the core is asked for.
    #[inline(always)]
    pub fn of(session: Session, command: Command) -> Option<AtOnce>
        ensures { result ≡ spec.at_once session command }
    {
        match command {
            Command::Excsat => Some(AtOnce::Excsat),
            Command::Accsec => Some(AtOnce::Accsec),
            Command::Secchk => Some(AtOnce::Secchk),
            Command::Accrdb => Some(AtOnce::Accrdb),
            Command::Syncctl if session.agreed.xa == 0 => Some(AtOnce::ManagerMissing),
            _ => None,
        }
    }
}

/// What is answered without the database, with the text of the answer appended to `out`. A name of another
/// database is RDBNFNRM, and leaves what is remembered. AllocError where memory is refused; some of the text may
/// have been appended.
pub fn answered_at_once(
    settings: &Settings,
    session: Session,
    what: AtOnce,
    given: Given<'_>,
    out: &mut Vec<u8>,
) -> Result<Answer, AllocError>
    ensures ok { IfOk result (λ a. IsAppended a out.old.items out.new.items (spec.answered_at_once settings.now session what (given_of given.entry))) }
    ensures err { OnErr result (take (vec_len out.old) out.new.items ≡ out.old.items) }
{
    match what {
        AtOnce::Excsat => {
            let asked = given.found(ItemKind::Parameter, code_point::MGRLVLLS);
            excsat(session, asked.value(), out)
        }
        AtOnce::Accsec => {
            let mechanism = given.found(ItemKind::Parameter, code_point::SECMEC);
            let rdb = given.found(ItemKind::Parameter, code_point::RDBNAM);
            accsec(settings, session, mechanism, rdb, out)
        }
        AtOnce::Secchk => {
            let mechanism = given.found(ItemKind::Parameter, code_point::SECMEC);
            let user = given.found(ItemKind::Parameter, code_point::USRID);
            let password = given.found(ItemKind::Parameter, code_point::PASSWORD);
            let code = check_code(settings, session, mechanism, user, password);
            checked(session, code, out)
        }
        AtOnce::Accrdb => {
            let rdb = given.found(ItemKind::Parameter, code_point::RDBNAM);
            accrdb(settings, session, rdb, out)
        }
        AtOnce::ManagerMissing => manager_missing(session, out),
    }
}

/// The answer to a refused command, its message of severity ERROR, with its text in place of what `text` was.
/// It leaves what is remembered. AllocError where memory is refused; some of the text may have been appended.
pub fn refused(
    settings: &Settings,
    session: Session,
    refusal: Refusal,
    out: &mut Vec<u8>,
) -> Result<Answer, AllocError>
    ensures ok { IfOk result (λ a. IsAppended a out.old.items out.new.items (spec.refused settings.now session refusal)) }
    ensures err { OnErr result (take (vec_len out.old) out.new.items ≡ out.old.items) }
{
    write_refusal(out, settings, session.agreed.unicode, refusal)?;
    Ok(Answer {
        session,
        kind: ReplyKind::Message,
        severity: 8,
    })
}
