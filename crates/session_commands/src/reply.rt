//! The texts of replies.

ghost use Rattle.std.specs.Prelude.{◌≡◌, ◌++◌, OnErr, OnOk, map, codes, take, vec_len, None, Some};
ghost use Rattle.std.specs.Option.{option_copied};
ghost use Rattle.ddm_objects.specs.Writing.{spelled};
ghost use Rattle.ebcdic_500.specs.CodePage.{byte_for};
ghost use Rattle.session_commands.specs.Replies.{refusal_reply, rdb_error, manager_missing, rdb_not_found, levels_part, excsatrd, accsecrd, accsecrd_refused, secchkrm, check_severity, ccsids, accrdbrm};
ghost use Rattle.session_commands.specs.Replies as spec;
ghost use Rattle.drda_names.specs.Names.{in_encoding, padded_in};
ghost use Rattle.ddm_objects.specs.declared.code_point.TheConstants.{EXTNAM, RDBNAM, SRVCLSNM, SRVNAM, SRVRLSLV, TYPDEFOVR};

use crate::levels::push_levels;
use crate::settings::Settings;
use ddm_objects::{close, code_point, open, put};
use drda_commands::{Mechanism, Refusal};
use drda_names::{push_name, push_padded};
use sqlam_replies::{ReplyMessage, reply_message};
use std::alloc::AllocError;

/// EXTNAM and SRVNAM: `drdad`, in code page 500.
pub const SERVER_NAME: [u8; 5] = [0x84, 0x99, 0x84, 0x81, 0x84];

/// SRVCLSNM: `DRDAD`, in code page 500.
pub const SERVER_CLASS: [u8; 5] = [0xC4, 0xD9, 0xC4, 0xC1, 0xC4];

/// SRVRLSLV: `RDA01000`, in code page 500.
pub const RELEASE_LEVEL: [u8; 8] = [0xD9, 0xC4, 0xC1, 0xF0, 0xF1, 0xF0, 0xF0, 0xF0];

/// The names that a server gives itself are these texts in code page 500.
#[tactic(auto, unfolding(ebcdic_500::specs::CodePage::byte_for))]
pub fn names_in_code_page_500()
    ensures server_name { map byte_for (codes "drdad") ≡ map Some SERVER_NAME }
    ensures server_class { map byte_for (codes "DRDAD") ≡ map Some SERVER_CLASS }
    ensures release_level { map byte_for (codes "RDA01000") ≡ map Some RELEASE_LEVEL }
{}

fn write_rdb(out: &mut Vec<u8>, settings: &Settings, unicode: bool) -> Result<(), AllocError>
    ensures ok { OnOk result (out.new.items ≡ out.old.items ++ spelled RDBNAM (padded_in unicode settings.now.rdb)) }
    ensures err { OnErr result (take (vec_len out.old) out.new.items ≡ out.old.items) }
{
    let container = open(out, code_point::RDBNAM)?;
    push_padded(out, unicode, settings.rdb())?;
    close(out, container)
}

// The name is encoded where it stands in the message, which takes no buffer for it.
fn write_rdb_error(
    out: &mut Vec<u8>,
    code: u16,
    settings: &Settings,
    unicode: bool,
) -> Result<(), AllocError>
    ensures ok { OnOk result (out.new.items ≡ out.old.items ++ (rdb_error code (padded_in unicode settings.now.rdb)).text) }
    ensures err { OnErr result (take (vec_len out.old) out.new.items ≡ out.old.items) }
{
    let container = open(out, code)?;
    put(out, code_point::SVRCOD, &[0, 8])?;
    write_rdb(out, settings, unicode)?;
    close(out, container)
}

/// Appends the message of a refusal.
pub(crate) fn write_refusal(
    out: &mut Vec<u8>,
    settings: &Settings,
    unicode: bool,
    refusal: Refusal,
) -> Result<(), AllocError>
    ensures ok { OnOk result (out.new.items ≡ out.old.items ++ (refusal_reply settings.now unicode refusal).text) }
    ensures err { OnErr result (take (vec_len out.old) out.new.items ≡ out.old.items) }
{
    match refusal {
        Refusal::Syntax(fault) => reply_message(out, ReplyMessage::Syntax(fault.synerrcd())),
        Refusal::OutOfTurn => reply_message(out, ReplyMessage::OutOfTurn),
        Refusal::RdbAccessed => write_rdb_error(out, code_point::RDBACCRM, settings, unicode),
        Refusal::RdbNotAccessed => write_rdb_error(out, code_point::RDBNACRM, settings, unicode),
        Refusal::CommandNotSupported(code) => {
            reply_message(out, ReplyMessage::CommandNotSupported(code))
        }
        Refusal::ValueNotSupported(code) => {
            reply_message(out, ReplyMessage::ValueNotSupported(code))
        }
    }
}

/// Appends MGRDEPRM.
pub(crate) fn write_manager_missing(out: &mut Vec<u8>) -> Result<(), AllocError>
    ensures ok { OnOk result (out.new.items ≡ out.old.items ++ manager_missing.text) }
    ensures err { OnErr result (take (vec_len out.old) out.new.items ≡ out.old.items) }
{
    reply_message(out, ReplyMessage::ManagerDependency)
}

/// Appends RDBNFNRM, with the name as it came.
pub(crate) fn write_rdb_not_found(out: &mut Vec<u8>, name: &[u8]) -> Result<(), AllocError>
    ensures ok { OnOk result (out.new.items ≡ out.old.items ++ (rdb_not_found name.now).text) }
    ensures err { OnErr result (take (vec_len out.old) out.new.items ≡ out.old.items) }
{
    reply_message(out, ReplyMessage::RdbNotFound(name))
}

fn write_levels(out: &mut Vec<u8>, asked: &[u8]) -> Result<(), AllocError>
    ensures ok { OnOk result (out.new.items ≡ out.old.items ++ levels_part (Some asked.now)) }
    ensures err { OnErr result (take (vec_len out.old) out.new.items ≡ out.old.items) }
{
    let container = open(out, code_point::MGRLVLLS)?;
    push_levels(out, asked)?;
    close(out, container)
}

// EXTNAM with the server's name, as an object.
const EXTERNAL_NAME: [u8; 9] = [0x00, 0x09, 0x11, 0x5E, 0x84, 0x99, 0x84, 0x81, 0x84];

// SRVCLSNM, SRVNAM and SRVRLSLV, one behind the other.
const SERVER_NAMES: [u8; 30] = [
    0x00, 0x09, 0x11, 0x47, 0xC4, 0xD9, 0xC4, 0xC1, 0xC4, 0x00, 0x09, 0x11, 0x6D, 0x84, 0x99, 0x84,
    0x81, 0x84, 0x00, 0x0C, 0x11, 0x5A, 0xD9, 0xC4, 0xC1, 0xF0, 0xF1, 0xF0, 0xF0, 0xF0,
];

fn write_external_name(out: &mut Vec<u8>) -> Result<(), AllocError>
    ensures ok { OnOk result (out.new.items ≡ out.old.items ++ spelled EXTNAM SERVER_NAME) }
    ensures err { OnErr result (take (vec_len out.old) out.new.items ≡ out.old.items) }
{
    out.extend_from_slice(&EXTERNAL_NAME)
}

fn write_server_names(out: &mut Vec<u8>) -> Result<(), AllocError>
    ensures ok { OnOk result (out.new.items ≡ out.old.items ++ spelled SRVCLSNM SERVER_CLASS ++ spelled SRVNAM SERVER_NAME ++ spelled SRVRLSLV RELEASE_LEVEL) }
    ensures err { OnErr result (take (vec_len out.old) out.new.items ≡ out.old.items) }
{
    out.extend_from_slice(&SERVER_NAMES)
}

// EXCSATRD where no levels were asked.
const EXCSATRD_WITHOUT_LEVELS: [u8; 43] = [
    0x00, 0x2B, 0x14, 0x43, 0x00, 0x09, 0x11, 0x5E, 0x84, 0x99, 0x84, 0x81, 0x84, 0x00, 0x09, 0x11,
    0x47, 0xC4, 0xD9, 0xC4, 0xC1, 0xC4, 0x00, 0x09, 0x11, 0x6D, 0x84, 0x99, 0x84, 0x81, 0x84, 0x00,
    0x0C, 0x11, 0x5A, 0xD9, 0xC4, 0xC1, 0xF0, 0xF1, 0xF0, 0xF0, 0xF0,
];

#[inline(always)]
fn write_without_levels(out: &mut Vec<u8>) -> Result<(), AllocError>
    ensures ok { OnOk result (out.new.items ≡ out.old.items ++ (excsatrd None).text) }
    ensures err { OnErr result (take (vec_len out.old) out.new.items ≡ out.old.items) }
{
    out.extend_from_slice(&EXCSATRD_WITHOUT_LEVELS)
}

#[inline(never)]
fn write_with_levels(out: &mut Vec<u8>, asked: &[u8]) -> Result<(), AllocError>
    ensures ok { OnOk result (out.new.items ≡ out.old.items ++ (excsatrd (Some asked.now)).text) }
    ensures err { OnErr result (take (vec_len out.old) out.new.items ≡ out.old.items) }
{
    let container = open(out, code_point::EXCSATRD)?;
    write_external_name(out)?;
    write_levels(out, asked)?;
    write_server_names(out)?;
    close(out, container)
}

/// Appends EXCSATRD.
#[inline(always)]
pub(crate) fn write_excsatrd(out: &mut Vec<u8>, asked: Option<&[u8]>) -> Result<(), AllocError>
    ensures ok { OnOk result (out.new.items ≡ out.old.items ++ (excsatrd (option_copied asked.entry)).text) }
    ensures err { OnErr result (take (vec_len out.old) out.new.items ≡ out.old.items) }
{
    match asked {
        Some(asked) => write_with_levels(out, asked),
        None => write_without_levels(out),
    }
}

fn mechanism_code(mechanism: Mechanism) -> u16
    ensures { result ≡ spec.mechanism_code mechanism }
{
    match mechanism {
        Mechanism::UserAndPassword => 3,
        Mechanism::UserOnly => 4,
    }
}

/// Appends ACCSECRD with the mechanism that is agreed on.
pub(crate) fn write_accsecrd(out: &mut Vec<u8>, mechanism: Mechanism) -> Result<(), AllocError>
    ensures ok { OnOk result (out.new.items ≡ out.old.items ++ (accsecrd mechanism).text) }
    ensures err { OnErr result (take (vec_len out.old) out.new.items ≡ out.old.items) }
{
    let container = open(out, code_point::ACCSECRD)?;
    put(
        out,
        code_point::SECMEC,
        &mechanism_code(mechanism).to_be_bytes(),
    )?;
    close(out, container)
}

/// Appends ACCSECRD with the mechanisms that there are.
pub(crate) fn write_accsecrd_refused(out: &mut Vec<u8>) -> Result<(), AllocError>
    ensures ok { OnOk result (out.new.items ≡ out.old.items ++ accsecrd_refused.text) }
    ensures err { OnErr result (take (vec_len out.old) out.new.items ≡ out.old.items) }
{
    let container = open(out, code_point::ACCSECRD)?;
    put(out, code_point::SECMEC, &[0, 3, 0, 4])?;
    put(out, code_point::SECCHKCD, &[0x01])?;
    close(out, container)
}

/// The severity of SECCHKRM: INFO where the check succeeded, ERROR where not.
pub(crate) fn severity_of(code: u8) -> u16
    ensures { result ≡ check_severity code }
{
    if code == 0 { 0 } else { 8 }
}

/// Appends SECCHKRM with a code.
pub(crate) fn write_secchkrm(out: &mut Vec<u8>, code: u8) -> Result<(), AllocError>
    ensures ok { OnOk result (out.new.items ≡ out.old.items ++ (secchkrm code).text) }
    ensures err { OnErr result (take (vec_len out.old) out.new.items ≡ out.old.items) }
{
    let container = open(out, code_point::SECCHKRM)?;
    put(out, code_point::SVRCOD, &severity_of(code).to_be_bytes())?;
    put(out, code_point::SECCHKCD, &[code])?;
    close(out, container)
}

fn write_ccsids(out: &mut Vec<u8>) -> Result<(), AllocError>
    ensures ok { OnOk result (out.new.items ≡ out.old.items ++ spelled TYPDEFOVR ccsids) }
    ensures err { OnErr result (take (vec_len out.old) out.new.items ≡ out.old.items) }
{
    let container = open(out, code_point::TYPDEFOVR)?;
    put(out, code_point::CCSIDSBC, &[0x04, 0xB8])?;
    put(out, code_point::CCSIDMBC, &[0x04, 0xB8])?;
    close(out, container)
}

fn write_name(out: &mut Vec<u8>, code: u16, unicode: bool, name: &[u8]) -> Result<(), AllocError>
    ensures ok { OnOk result (out.new.items ≡ out.old.items ++ spelled code (in_encoding unicode name.now)) }
    ensures err { OnErr result (take (vec_len out.old) out.new.items ≡ out.old.items) }
{
    let container = open(out, code)?;
    push_name(out, unicode, name)?;
    close(out, container)
}

/// Appends ACCRDBRM.
pub(crate) fn write_accrdbrm(out: &mut Vec<u8>, unicode: bool) -> Result<(), AllocError>
    ensures ok { OnOk result (out.new.items ≡ out.old.items ++ (accrdbrm unicode).text) }
    ensures err { OnErr result (take (vec_len out.old) out.new.items ≡ out.old.items) }
{
    let container = open(out, code_point::ACCRDBRM)?;
    put(out, code_point::SVRCOD, &[0, 0])?;
    write_name(out, code_point::PRDID, unicode, b"RDA01000")?;
    write_name(out, code_point::TYPDEFNAM, unicode, b"QTDSQLASC")?;
    write_ccsids(out)?;
    close(out, container)
}
