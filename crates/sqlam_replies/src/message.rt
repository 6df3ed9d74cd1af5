//! Reply messages.

ghost use Rattle.std.specs.Prelude.{◌≡◌, ◌<◌, ◌≤◌, ◌+◌, ◌∷◌, ◌++◌, [], OnOk, OnErr, length, map, take, vec_len, vec_capacity};
ghost use Rattle.ddm_objects.specs.Writing.{spelled};
ghost use Rattle.sqlam_replies.specs.Message.{objects, message_of, message_text, disposition, held_mark, scalar};
ghost use Rattle.ddm_objects.specs.declared.code_point.TheConstants.{LMTBLKPRC, OPNQRYRM, PKGNAMCSN, QRYINSID, QRYPRCTYP, RDBNAM, SQLCSRHLD};
ghost use Rattle.std.specs.Int.{to_be_bytes, w16, w64};
ghost use Rattle.sqlam_replies.specs.Parameters.{parameter_of};

use crate::in_place::{resource_limit, syntax_message};
use ddm_objects::{close, code_point, open, put};
use std::alloc::AllocError;

/// How a unit of work ended.
#[derive(Clone, Copy)]
pub enum UnitEnd {
    Committed,
    RolledBack,
}

impl UnitEnd {
    /// The value of UOWDSP.
    fn disposition(self) -> u8
        ensures { result ≡ disposition self }
    {
        match self {
            UnitEnd::Committed => 0x01,
            UnitEnd::RolledBack => 0x02,
        }
    }
}

/// A reply message (DRDA V5 volume 3). `rdb` is the value of RDBNAM as it is answered, `section` that of
/// PKGNAMCSN as it came.
#[derive(Clone, Copy)]
pub enum ReplyMessage<'a> {
    /// SYNTAXRM, with its SYNERRCD.
    Syntax(u8),
    /// PRCCNVRM: the command does not come at this stage.
    OutOfTurn,
    /// CMDNSPRM, with the code point of the command.
    CommandNotSupported(u16),
    /// VALNSPRM, with the code point of the parameter or data object.
    ValueNotSupported(u16),
    /// RDBNFNRM, with the name as it came.
    RdbNotFound(&'a [u8]),
    /// CMDVLTRM: the command is not allowed where the conversation stands.
    CommandViolation(&'a [u8]),
    /// OPNQFLRM: the query was not opened.
    OpenFailed(&'a [u8]),
    /// QRYNOPRM: the section has no open query, or another one.
    QueryNotOpen { rdb: &'a [u8], section: &'a [u8] },
    /// QRYPOPRM: the section's query is open already.
    QueryOpen { rdb: &'a [u8], section: &'a [u8] },
    /// MGRDEPRM: a manager that the command needs was not agreed on.
    ManagerDependency,
    /// RSCLMTRM: memory or room is missing.
    ResourceLimit,
    /// AGNPRMRM: the server can't go on.
    AgentFailed,
    /// ENDUOWRM: a unit of work ended.
    UnitEnded(UnitEnd),
    /// RDBUPDRM: the unit changes the database.
    RdbUpdated(&'a [u8]),
    /// OPNQRYRM: the query is open, under the limited block protocol, with its QRYINSID.
    QueryOpened { is_held: bool, instance: u64 },
    /// ENDQRYRM: no row is left, and the query is closed.
    EndOfQuery,
}

impl ReplyMessage<'_> {
    /// The severity: 0 INFO, 4 WARNING, 8 ERROR, 64 PRMDMG. From 8 on it breaks a chain.
    pub fn severity(&self) -> u16
        ensures { result ≡ (message_of self.now).severity }
    {
        match self {
            ReplyMessage::RdbUpdated(_) | ReplyMessage::QueryOpened { .. } => 0,
            ReplyMessage::UnitEnded(_) | ReplyMessage::EndOfQuery => 4,
            ReplyMessage::AgentFailed => 64,
            _ => 8,
        }
    }
}

/// An object in a reply message.
#[derive(Clone, Copy)]
struct Parameter<'a> {
    code: u16,
    value: &'a [u8],
}

/// Appends objects side by side.
fn push_parameters(out: &mut Vec<u8>, parameters: &[Parameter<'_>]) -> Result<(), AllocError>
    ensures ok { OnOk result (out.new.items ≡ out.old.items ++ objects (map parameter_of parameters.now)) }
    ensures kept { take (vec_len out.old) out.new.items ≡ out.old.items }
    ensures full { OnErr result (vec_capacity out.old < vec_len out.old + length (objects (map parameter_of parameters.now))) }
    ensures capacity { vec_capacity out.old ≤ vec_capacity out.new }
{
    for parameter in parameters {
        put(out, parameter.code, parameter.value)?;
    }
    Ok(())
}

#[tactic(auto, using(crate::proofs::Sizes::spelled_size))]
fn push_message(
    out: &mut Vec<u8>,
    code: u16,
    severity: u16,
    parameters: &[Parameter<'_>],
) -> Result<(), AllocError>
    ensures ok { OnOk result (out.new.items ≡ out.old.items ++ message_text (record { code = code; severity = severity; parameters = map parameter_of parameters.now })) }
    ensures kept { take (vec_len out.old) out.new.items ≡ out.old.items }
    ensures full { OnErr result (vec_capacity out.old < vec_len out.old + length (message_text (record { code = code; severity = severity; parameters = map parameter_of parameters.now }))) }
    ensures capacity { vec_capacity out.old ≤ vec_capacity out.new }
{
    let container = open(out, code)?;
    put(out, code_point::SVRCOD, &severity.to_be_bytes())?;
    push_parameters(out, parameters)?;
    close(out, container)
}

fn put_message(
    out: &mut Vec<u8>,
    code: u16,
    severity: u16,
    parameters: &[Parameter<'_>],
) -> Result<(), AllocError>
    ensures ok { OnOk result (out.new.items ≡ out.old.items ++ message_text (record { code = code; severity = severity; parameters = map parameter_of parameters.now })) }
    ensures err { OnErr result (out.new.items ≡ out.old.items) }
    ensures full { OnErr result (vec_capacity out.old < vec_len out.old + length (message_text (record { code = code; severity = severity; parameters = map parameter_of parameters.now }))) }
    ensures capacity { vec_capacity out.old ≤ vec_capacity out.new }
{
    let start = out.len();
    let pushed = push_message(out, code, severity, parameters);
    if pushed.is_err() {
        out.truncate(start);
    }
    pushed
}

fn put_of_rdb(out: &mut Vec<u8>, code: u16, severity: u16, rdb: &[u8]) -> Result<(), AllocError>
    ensures ok { OnOk result (out.new.items ≡ out.old.items ++ message_text (record { code = code; severity = severity; parameters = scalar RDBNAM rdb.now ∷ [] })) }
    ensures err { OnErr result (out.new.items ≡ out.old.items) }
    ensures full { OnErr result (vec_capacity out.old < vec_len out.old + length (message_text (record { code = code; severity = severity; parameters = scalar RDBNAM rdb.now ∷ [] }))) }
    ensures capacity { vec_capacity out.old ≤ vec_capacity out.new }
{
    put_message(
        out,
        code,
        severity,
        &[Parameter {
            code: code_point::RDBNAM,
            value: rdb,
        }],
    )
}

fn put_of_section(
    out: &mut Vec<u8>,
    code: u16,
    severity: u16,
    rdb: &[u8],
    section: &[u8],
) -> Result<(), AllocError>
    ensures ok { OnOk result (out.new.items ≡ out.old.items ++ message_text (record { code = code; severity = severity; parameters = scalar RDBNAM rdb.now ∷ scalar PKGNAMCSN section.now ∷ [] })) }
    ensures err { OnErr result (out.new.items ≡ out.old.items) }
    ensures full { OnErr result (vec_capacity out.old < vec_len out.old + length (message_text (record { code = code; severity = severity; parameters = scalar RDBNAM rdb.now ∷ scalar PKGNAMCSN section.now ∷ [] }))) }
    ensures capacity { vec_capacity out.old ≤ vec_capacity out.new }
{
    put_message(
        out,
        code,
        severity,
        &[
            Parameter {
                code: code_point::RDBNAM,
                value: rdb,
            },
            Parameter {
                code: code_point::PKGNAMCSN,
                value: section,
            },
        ],
    )
}

fn put_opened(
    out: &mut Vec<u8>,
    severity: u16,
    is_held: bool,
    instance: u64,
) -> Result<(), AllocError>
    ensures ok { OnOk result (out.new.items ≡ out.old.items ++ message_text (record { code = OPNQRYRM; severity = severity; parameters = scalar QRYPRCTYP (to_be_bytes w16 LMTBLKPRC) ∷ scalar SQLCSRHLD (held_mark is_held ∷ []) ∷ scalar QRYINSID (to_be_bytes w64 instance) ∷ [] })) }
    ensures err { OnErr result (out.new.items ≡ out.old.items) }
    ensures full { OnErr result (vec_capacity out.old < vec_len out.old + length (message_text (record { code = OPNQRYRM; severity = severity; parameters = scalar QRYPRCTYP (to_be_bytes w16 LMTBLKPRC) ∷ scalar SQLCSRHLD (held_mark is_held ∷ []) ∷ scalar QRYINSID (to_be_bytes w64 instance) ∷ [] }))) }
    ensures capacity { vec_capacity out.old ≤ vec_capacity out.new }
{
    put_message(
        out,
        code_point::OPNQRYRM,
        severity,
        &[
            Parameter {
                code: code_point::QRYPRCTYP,
                value: &code_point::LMTBLKPRC.to_be_bytes(),
            },
            Parameter {
                code: code_point::SQLCSRHLD,
                value: &[held_mark(is_held)],
            },
            Parameter {
                code: code_point::QRYINSID,
                value: &instance.to_be_bytes(),
            },
        ],
    )
}

fn held_mark(is_held: bool) -> u8
    ensures { result ≡ held_mark is_held }
{
    if is_held { 0xF1 } else { 0xF0 }
}

/// Appends a reply message. Where memory is refused nothing is appended, and that does not happen where
/// the list has room for the message.
pub fn reply_message(out: &mut Vec<u8>, message: ReplyMessage<'_>) -> Result<(), AllocError>
    ensures ok { OnOk result (out.new.items ≡ out.old.items ++ message_text (message_of message.entry)) }
    ensures err { OnErr result (out.new.items ≡ out.old.items) }
    ensures full { OnErr result (vec_capacity out.old < vec_len out.old + length (message_text (message_of message.entry))) }
    ensures capacity { vec_capacity out.old ≤ vec_capacity out.new }
{
    let severity = message.severity();
    match message {
        ReplyMessage::Syntax(code) => out.extend_from_slice(&syntax_message(code)),
        ReplyMessage::OutOfTurn => put_message(out, code_point::PRCCNVRM, severity, &[]),
        ReplyMessage::CommandNotSupported(code) => put_message(
            out,
            code_point::CMDNSPRM,
            severity,
            &[Parameter {
                code: code_point::CODPNT,
                value: &code.to_be_bytes(),
            }],
        ),
        ReplyMessage::ValueNotSupported(code) => put_message(
            out,
            code_point::VALNSPRM,
            severity,
            &[Parameter {
                code: code_point::CODPNT,
                value: &code.to_be_bytes(),
            }],
        ),
        ReplyMessage::RdbNotFound(rdb) => put_of_rdb(out, code_point::RDBNFNRM, severity, rdb),
        ReplyMessage::CommandViolation(rdb) => put_of_rdb(out, code_point::CMDVLTRM, severity, rdb),
        ReplyMessage::OpenFailed(rdb) => put_of_rdb(out, code_point::OPNQFLRM, severity, rdb),
        ReplyMessage::QueryNotOpen { rdb, section } => put_of_section(
            out,
            code_point::QRYNOPRM,
            severity,
            rdb,
            section,
        ),
        ReplyMessage::QueryOpen { rdb, section } => put_of_section(
            out,
            code_point::QRYPOPRM,
            severity,
            rdb,
            section,
        ),
        ReplyMessage::ManagerDependency => put_message(out, code_point::MGRDEPRM, severity, &[]),
        ReplyMessage::ResourceLimit => out.extend_from_slice(&resource_limit()),
        ReplyMessage::AgentFailed => put_message(out, code_point::AGNPRMRM, severity, &[]),
        ReplyMessage::UnitEnded(end) => put_message(
            out,
            code_point::ENDUOWRM,
            severity,
            &[Parameter {
                code: code_point::UOWDSP,
                value: &[end.disposition()],
            }],
        ),
        ReplyMessage::RdbUpdated(rdb) => put_of_rdb(out, code_point::RDBUPDRM, severity, rdb),
        ReplyMessage::QueryOpened { is_held, instance } => put_opened(
            out, severity, is_held, instance,
        ),
        ReplyMessage::EndOfQuery => put_message(out, code_point::ENDQRYRM, severity, &[]),
    }
}
