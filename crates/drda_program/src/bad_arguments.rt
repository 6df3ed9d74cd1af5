//! Which argument is bad, and why, where the words ask for what there can't be.

ghost use Rattle.std.specs.Prelude.{◌≡◌, ◌≢◌, Err, string_bytes};

use command_line::{Job, LoginSource, NAME_WANTED, SIZE_WANTED, tell_bad};
use half_store::is_store;
use std::fmt::Write;
use store_files::Fault;

/// The size of the smallest store.
const SMALLEST: usize = 2_097_152;

const LOGIN_WANTED: &str = "one line U:P, a user and a password with a colon between them";

/// Appends a line that says which argument of a job was refused, and why, where one was.
pub(crate) fn tell_if_bad(done: Result<(), Fault>, job: &Job<'_>, text: &mut String)
    ensures { done ≢ Err Fault.BadArguments → string_bytes text.new ≡ string_bytes text.old }
{
    match done {
        Err(Fault::BadArguments) => tell_bad_argument(job, text),
        _ => {}
    }
}

fn tell_bad_argument(job: &Job<'_>, text: &mut String) {
    match job {
        Job::Init { path: _, size, rdb } => tell_bad_store(*size, rdb, text),
        Job::Pipe { path, rdb, login } => {
            if path.is_none() && !is_store(SMALLEST, rdb) {
                tell_bad_store(SMALLEST as u64, rdb, text);
            } else {
                tell_bad_login(*login, text);
            }
        }
        Job::Serve { login, .. } => tell_bad_login(*login, text),
        _ => {}
    }
}

// The name is bad, or else the size.
fn tell_bad_store(size: u64, rdb: &str, text: &mut String) {
    if is_store(SMALLEST, rdb) {
        let _ = writeln!(text, "drdad: --size {size}: {SIZE_WANTED}");
    } else {
        let _ = writeln!(text, "drdad: --rdb {rdb}: {NAME_WANTED}");
    }
}

fn tell_bad_login(login: LoginSource<'_>, text: &mut String) {
    match login {
        LoginSource::File(path) => tell_bad(text, path, LOGIN_WANTED),
        LoginSource::Words(_) => {}
    }
}
