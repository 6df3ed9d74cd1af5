//! What an accepted command brings.

ghost use Rattle.std.specs.Prelude.{◌≡◌};
ghost use Rattle.drda_commands.specs.Views.{given_of};
ghost use Rattle.sql_commands.specs.Commands as commands;

use core_calls::Side;
use drda_commands::{Accepted, DescribedSide};

pub(crate) fn side_for(side: DescribedSide) -> Side
    ensures { result ≡ commands.side_for side }
{
    match side {
        DescribedSide::Columns => Side::Output,
        DescribedSide::Parameters => Side::Input,
    }
}

// The name of the section that is meant; a command that means one has it where it is accepted.
pub(crate) fn section_name<'a>(accepted: &Accepted<'a>) -> &'a [u8]
    ensures { result.now ≡ commands.section_name (given_of accepted.now.given) }
{
    match accepted.section() {
        Some(name) => name,
        None => &[],
    }
}

// The text of the statement, which a command that brings one has where it is accepted.
pub(crate) fn statement_text<'a>(accepted: &Accepted<'a>) -> &'a [u8]
    ensures { result.now ≡ commands.statement_text (given_of accepted.now.given) }
{
    match accepted.statement() {
        Some(text) => text,
        None => &[],
    }
}

// What a PRPSQLSTT is to describe, if anything.
pub(crate) fn wanted_side(accepted: &Accepted<'_>) -> Option<Side>
    ensures { result ≡ commands.wanted_side (given_of accepted.now.given) }
{
    if accepted.wants_description() {
        Some(side_for(accepted.side()))
    } else {
        None
    }
}
