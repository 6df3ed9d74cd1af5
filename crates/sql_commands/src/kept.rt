//! What an XA call leaves of what a conversation keeps.

ghost use Rattle.std.specs.Prelude.{◌≡◌, Some};
ghost use Rattle.std.specs.Result.{result_ok};
ghost use Rattle.sql_commands.specs.SyncControl as spec;

use command_kit::Statements;
use xa_calls::{InvalidRequest, Request, Verb, XaCode};

// This was done of a branch.
fn verb_behind(verb: Verb, statements: &mut Statements)
    ensures { statements.new ≡ spec.verb_behind verb statements.old }
{
    match verb {
        Verb::Start | Verb::Join => statements.is_change_told = false,
        Verb::End(_) => statements.end_unit(false),
        Verb::Prepare | Verb::Commit | Verb::CommitOnePhase | Verb::RollBack | Verb::Forget => {}
    }
}

// A call that is one was answered by this code.
fn request_behind(request: &Request, code: XaCode, statements: &mut Statements)
    ensures { statements.new ≡ spec.call_behind (Some request.now) code statements.old }
{
    match (request, code) {
        (Request::Branch(verb, _), XaCode::Done) => verb_behind(*verb, statements),
        _ => {}
    }
}

/// A call was answered by this code: a start and an end that are done begin the telling of changes anew, and
/// an end closes all cursors.
pub(crate) fn call_behind(
    request: &Result<Request, InvalidRequest>,
    code: XaCode,
    statements: &mut Statements,
)
    ensures { statements.new ≡ spec.call_behind (result_ok request.now) code statements.old }
{
    match request {
        Ok(request) => request_behind(request, code, statements),
        Err(_) => {}
    }
}
