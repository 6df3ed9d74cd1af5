//! How commands are judged, and what they bring.

use ddm_objects::CodePoint;
use drda_commands::{Accepted, DescribedSide, Refusal};
use std::alloc::AllocError;

// The reply message that refuses a command, with its SYNERRCD or code point, 0 where it has neither.
fn reason(refusal: Refusal) -> (&'static str, u16) {
    match refusal {
        Refusal::Syntax(error) => ("SYNTAXRM", u16::from(error.synerrcd())),
        Refusal::OutOfTurn => ("PRCCNVRM", 0),
        Refusal::RdbAccessed => ("RDBACCRM", 0),
        Refusal::RdbNotAccessed => ("RDBNACRM", 0),
        Refusal::CommandNotSupported(code) => ("CMDNSPRM", code),
        Refusal::ValueNotSupported(code) => ("VALNSPRM", code),
    }
}

/// Tells the command that is accepted, or why it is refused.
pub fn tell_verdict(
    verdict: Result<Accepted<'_>, Refusal>,
    told: &mut String,
) -> Result<(), AllocError> {
    match verdict {
        Ok(accepted) => {
            let command = CodePoint(accepted.command.code());
            write!(told, "accepted {command}")
        }
        Err(refusal) => {
            let (message, code) = reason(refusal);
            write!(told, "{message} {code:04X}")
        }
    }
}

// Whether its values are described, and whether they are there.
fn tell_data(accepted: &Accepted<'_>, told: &mut String) -> Result<(), AllocError> {
    match accepted.described_data() {
        Some(data) => {
            let (is_described, has_values) = (data.description.is_some(), data.values.is_some());
            write!(told, "; described {is_described}, values {has_values}")
        }
        None => told.push_str("; no data"),
    }
}

// Its numbers.
fn tell_numbers(accepted: &Accepted<'_>, told: &mut String) -> Result<(), AllocError> {
    let (size, instance) = (accepted.block_size(), accepted.query_instance());
    let (sync_type, wants) = (accepted.sync_type(), accepted.wants_description());
    let is_input = matches!(accepted.side(), DescribedSide::Parameters);
    write!(
        told,
        "; described {wants}, parameters {is_input}, {size:?} {instance:?} {sync_type:?}"
    )
}

fn tell_text(name: &str, text: Option<&[u8]>, told: &mut String) -> Result<(), AllocError> {
    match text {
        Some(text) => {
            let text = str::from_utf8(text).unwrap_or("no text");
            write!(told, "; {name} '{text}'")
        }
        None => Ok(()),
    }
}

/// Tells what an accepted command brings.
pub fn tell_brought(accepted: &Accepted<'_>, told: &mut String) -> Result<(), AllocError> {
    let section = accepted.section().map(|bytes| bytes.len());
    write!(told, "section {section:?}")?;
    tell_text("statement", accepted.statement(), told)?;
    tell_text("attributes", accepted.attributes(), told)?;
    tell_numbers(accepted, told)?;
    tell_data(accepted, told)
}
