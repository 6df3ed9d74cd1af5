//! What the texts behind a subcommand ask for.

ghost use Rattle.std.specs.Prelude.{◌≡◌, IfOk, option_map};
ghost use Rattle.command_line.specs.Job as spec;

use crate::job::{Job, LoginSource, ServeOptions};
use crate::logins::login_in;
use crate::numbers::{number_in, port_in, seconds_in};
use crate::spelling::{xid_in, xid_in_one};
use std::alloc::{AllocError, Global};
use xa_calls::Xid;
use xa_manager::Decision;

pub(crate) fn init_by<'a>(
    path: Option<&'a str>,
    size: Option<&'a str>,
    rdb: Option<&'a str>,
) -> Option<Job<'a>>
    ensures { option_map spec.plain_job result ≡ spec.init_by (option_map (λ p. p.now) path.entry) (option_map (λ s. s.now) size.entry) (option_map (λ r. r.now) rdb.entry) }
{
    let (Some(path), Some(size), Some(rdb)) = (path, size, rdb) else {
        return None;
    };
    let size = number_in(size)?;
    Some(Job::Init { path, size, rdb })
}

pub(crate) fn pipe_by<'a>(
    path: Option<&'a str>,
    rdb: Option<&'a str>,
    user: Option<&'a str>,
    file: Option<&'a str>,
) -> Option<Job<'a>>
    ensures { option_map spec.plain_job result ≡ spec.pipe_by (option_map (λ p. p.now) path.entry) (option_map (λ r. r.now) rdb.entry) (option_map (λ u. u.now) user.entry) (option_map (λ f. f.now) file.entry) }
{
    let rdb = rdb?;
    let login = source_by(user, file)?;
    Some(Job::Pipe { path, rdb, login })
}

pub(crate) fn serve_by<'a>(
    path: Option<&'a str>,
    port: Option<&'a str>,
    user: Option<&'a str>,
    file: Option<&'a str>,
    options: Option<ServeOptions>,
) -> Option<Job<'a>>
    ensures { option_map spec.plain_job result ≡ spec.serve_by (option_map (λ p. p.now) path.entry) (option_map (λ t. t.now) port.entry) (option_map (λ u. u.now) user.entry) (option_map (λ f. f.now) file.entry) options }
{
    let (Some(path), Some(port)) = (path, port) else {
        return None;
    };
    let port = port_in(port)?;
    let login = source_by(user, file)?;
    let options = options?;
    Some(Job::Serve {
        path,
        port,
        login,
        options,
    })
}

pub(crate) fn options_by(
    count: Option<&str>,
    idle: Option<&str>,
    limits: Option<Limits>,
    log: Option<&str>,
    end_when_failed: Option<&str>,
) -> Option<ServeOptions>
    ensures { result ≡ spec.options_by (option_map (λ t. t.now) count.entry) (option_map (λ t. t.now) idle.entry) limits (option_map (λ t. t.now) log.entry) (option_map (λ t. t.now) end_when_failed.entry) }
{
    let count = counted(count)?;
    let idle = timed(idle)?;
    let limits = limits?;
    Some(ServeOptions {
        count,
        idle,
        login: limits.login,
        cursor_bytes: limits.cursor_bytes,
        all_bytes: limits.all_bytes,
        is_logged: is_given(log),
        ends_when_failed: is_given(end_when_failed),
    })
}

/// What clients are held to.
#[derive(Clone, Copy)]
pub(crate) struct Limits {
    pub(crate) login: u32,
    pub(crate) cursor_bytes: u64,
    pub(crate) all_bytes: u64,
}

pub(crate) fn limits_by(
    login: Option<&str>,
    cursor_bytes: Option<&str>,
    all_bytes: Option<&str>,
) -> Option<Limits>
    ensures { result ≡ spec.limits_by (option_map (λ t. t.now) login.entry) (option_map (λ t. t.now) cursor_bytes.entry) (option_map (λ t. t.now) all_bytes.entry) }
{
    let login = seconds_in(login?)?;
    let cursor_bytes = number_in(cursor_bytes?)?;
    let all_bytes = number_in(all_bytes?)?;
    Some(Limits {
        login,
        cursor_bytes,
        all_bytes,
    })
}

pub(crate) fn in_doubt_by<'a>(path: Option<&'a str>) -> Option<Job<'a>>
    ensures { option_map spec.plain_job result ≡ spec.in_doubt_by (option_map (λ p. p.now) path.entry) }
{
    match path {
        Some(path) => Some(Job::InDoubt { path }),
        None => None,
    }
}

pub(crate) fn decide_by<'a>(
    alloc: Global,
    path: Option<&'a str>,
    xid: Option<&str>,
    decision: Option<&str>,
    branch: Option<&str>,
    last: Option<&str>,
) -> Result<Option<Job<'a>>, AllocError>
    ensures { IfOk result (λ job. option_map spec.plain_job job ≡ spec.decide_by (option_map (λ p. p.now) path.entry) (option_map (λ x. x.now) xid.entry) (option_map (λ d. d.now) decision.entry) (option_map (λ b. b.now) branch.entry) (option_map (λ l. l.now) last.entry)) }
{
    match (path, xid, decision) {
        (Some(path), Some(xid), Some(decision)) => {
            decide_in(alloc, path, xid, decision, branch, last)
        }
        _ => Ok(None),
    }
}

// By two words or by four.
fn decide_in<'a>(
    alloc: Global,
    path: &'a str,
    xid: &str,
    decision: &str,
    branch: Option<&str>,
    last: Option<&str>,
) -> Result<Option<Job<'a>>, AllocError>
    ensures { IfOk result (λ job. option_map spec.plain_job job ≡ spec.decide_in path.now xid.now decision.now (option_map (λ b. b.now) branch.entry) (option_map (λ l. l.now) last.entry)) }
{
    match (branch, last) {
        (None, None) => Ok(decide_with(path, xid_in_one(alloc, xid)?, decision)),
        (Some(branch), Some(last)) => {
            Ok(decide_with(path, xid_in(alloc, xid, decision, branch)?, last))
        }
        _ => Ok(None),
    }
}

fn decide_with<'a>(path: &'a str, xid: Option<Xid>, decision: &str) -> Option<Job<'a>>
    ensures { option_map spec.plain_job result ≡ spec.decide_with path.now xid decision.now }
{
    let xid = xid?;
    let decision = decision_in(decision)?;
    Some(Job::Decide {
        path,
        xid,
        decision,
    })
}

/// How a unit is decided, as its word says.
pub(crate) fn decision_in(text: &str) -> Option<Decision>
    ensures { result ≡ spec.decision_in text.now }
{
    match text {
        "commit" => Some(Decision::Commit),
        "rollback" => Some(Decision::RollBack),
        _ => None,
    }
}

pub(crate) fn room_by<'a>(path: Option<&'a str>) -> Option<Job<'a>>
    ensures { option_map spec.plain_job result ≡ spec.room_by (option_map (λ p. p.now) path.entry) }
{
    match path {
        Some(path) => Some(Job::Room { path }),
        None => None,
    }
}

pub(crate) fn check_by<'a>(path: Option<&'a str>) -> Option<Job<'a>>
    ensures { option_map spec.plain_job result ≡ spec.check_by (option_map (λ p. p.now) path.entry) }
{
    match path {
        Some(path) => Some(Job::Check { path }),
        None => None,
    }
}

pub(crate) fn tables_by<'a>(path: Option<&'a str>) -> Option<Job<'a>>
    ensures { option_map spec.plain_job result ≡ spec.tables_by (option_map (λ p. p.now) path.entry) }
{
    match path {
        Some(path) => Some(Job::Tables { path }),
        None => None,
    }
}

pub(crate) fn dump_by<'a>(path: Option<&'a str>) -> Option<Job<'a>>
    ensures { option_map spec.plain_job result ≡ spec.dump_by (option_map (λ p. p.now) path.entry) }
{
    match path {
        Some(path) => Some(Job::Dump { path }),
        None => None,
    }
}

pub(crate) fn grow_by<'a>(
    path: Option<&'a str>,
    new: Option<&'a str>,
    size: Option<&'a str>,
) -> Option<Job<'a>>
    ensures { option_map spec.plain_job result ≡ spec.grow_by (option_map (λ p. p.now) path.entry) (option_map (λ n. n.now) new.entry) (option_map (λ s. s.now) size.entry) }
{
    let (Some(path), Some(new), Some(size)) = (path, new, size) else {
        return None;
    };
    let size = number_in(size)?;
    Some(Job::Grow { path, new, size })
}

// One of both.
fn source_by<'a>(user: Option<&'a str>, file: Option<&'a str>) -> Option<LoginSource<'a>>
    ensures { option_map spec.plain_source result ≡ spec.source_by (option_map (λ u. u.now) user.entry) (option_map (λ f. f.now) file.entry) }
{
    match (user, file) {
        (Some(user), None) => Some(LoginSource::Words(login_in(user)?)),
        (None, Some(file)) => Some(LoginSource::File(file)),
        (None, None) | (Some(_), Some(_)) => None,
    }
}

// How many conversations, where that is said.
fn counted(text: Option<&str>) -> Option<Option<u64>>
    ensures { result ≡ spec.counted (option_map (λ t. t.now) text.entry) }
{
    match text {
        None => Some(None),
        Some(text) => match number_in(text) {
            Some(number) => Some(Some(number)),
            None => None,
        },
    }
}

// How many seconds, where that is said.
fn timed(text: Option<&str>) -> Option<Option<u32>>
    ensures { result ≡ spec.timed (option_map (λ t. t.now) text.entry) }
{
    match text {
        None => Some(None),
        Some(text) => match seconds_in(text) {
            Some(number) => Some(Some(number)),
            None => None,
        },
    }
}

// Whether a flag is given, by the text that the parser of words gives it.
fn is_given(text: Option<&str>) -> bool
    ensures { result ≡ spec.is_given (option_map (λ t. t.now) text.entry) }
{
    match text {
        Some(text) => text == "true",
        None => false,
    }
}
