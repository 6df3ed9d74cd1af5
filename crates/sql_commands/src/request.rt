//! The call that a SYNCCTL names.

ghost use Rattle.std.specs.Prelude.{◌≡◌, unwrap_or};
ghost use Rattle.std.specs.Result.{result_ok};
ghost use Rattle.drda_commands.specs.Values.{sync_type_in};
ghost use Rattle.drda_commands.specs.Views.{given_of};
ghost use Rattle.sql_commands.specs.SyncControl as spec;

use ddm_objects::code_point;
use drda_commands::{Accepted, ItemKind};
use xa_calls::{InvalidRequest, Request};

// The number of SYNCTYPE, which a command that is accepted has.
fn sync_number(accepted: &Accepted<'_>) -> u8
    ensures { result ≡ unwrap_or (sync_type_in (given_of accepted.now.given)) 0 }
{
    match accepted.sync_type() {
        Some(number) => number,
        None => 0,
    }
}

/// The call that a SYNCCTL names, or that it names none.
pub(crate) fn request_of(accepted: &Accepted<'_>) -> Result<Request, InvalidRequest>
    ensures { result_ok result ≡ spec.request_of (given_of accepted.now.given) }
{
    let flags = accepted.brought(ItemKind::Parameter, code_point::XAFLAGS);
    let xid = accepted.brought(ItemKind::Parameter, code_point::XID);
    Request::read(sync_number(accepted), flags, xid)
}
