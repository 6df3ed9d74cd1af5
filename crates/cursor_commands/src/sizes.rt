//! How many bytes the replies to a command on a cursor take at most.

ghost use Rattle.std.specs.Prelude.{◌≡◌};
ghost use Rattle.drda_commands.specs.Values.{block_size_in, query_instance_in};
ghost use Rattle.drda_commands.specs.Views.{given_of};
ghost use Rattle.sections.specs.Cursors.{meant_cursor};
ghost use Rattle.cursor_commands.specs.Commands.{name_in};
ghost use Rattle.cursor_commands.specs.Sizes as spec;

use crate::replies::section_name;
use crate::room::rows_text;
use command_kit::Statements;
use drda_commands::{Accepted, Command};
use dss_frames::written_length;
use sections::MAX_QRYDSC_LENGTH;
use sqlam_replies::{MAX_MESSAGE_LENGTH, SQLCARD_LENGTH};

fn block_length(size: u32) -> usize
    ensures { result ≡ spec.block_length size }
{
    let ending = written_length(MAX_MESSAGE_LENGTH) + written_length(SQLCARD_LENGTH);
    written_length(rows_text(size)) + ending
}

fn opening_length(size: u32) -> usize
    ensures { result ≡ spec.opening_length size }
{
    let opened = written_length(MAX_MESSAGE_LENGTH) + written_length(MAX_QRYDSC_LENGTH);
    opened + block_length(size)
}

// The size of the block that the command asks for.
fn next_size(accepted: &Accepted<'_>, statements: &Statements) -> u32
    ensures { result ≡ spec.next_size (block_size_in (given_of accepted.now.given)) (meant_cursor (name_in (given_of accepted.now.given)) (query_instance_in (given_of accepted.now.given)) statements.now.sections) }
{
    let name = section_name(accepted);
    match statements
        .sections
        .next_block(name, accepted.query_instance(), accepted.block_size())
    {
        Ok(block) => block.size,
        Err(_) => 0,
    }
}

/// The most bytes that the replies to a command on a cursor take as DSSs: room for them is made before the
/// command is done. 0 for any other command.
pub fn most_length(accepted: &Accepted<'_>, statements: &Statements) -> usize
    ensures { result ≡ spec.most_length accepted.now.command (given_of accepted.now.given) statements.now }
{
    match accepted.command {
        Command::Opnqry => opening_length(accepted.block_size().unwrap_or(0)),
        Command::Cntqry => block_length(next_size(accepted, statements)),
        Command::Clsqry => written_length(MAX_MESSAGE_LENGTH),
        _ => 0,
    }
}
