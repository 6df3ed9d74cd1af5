//! Reading the words.

ghost use Rattle.std.specs.Prelude.{◌≡◌, IfOk, [], codes, map, option_map, string_bytes};
ghost use Rattle.clap.specs.Words.{found_of, rows_of, subcommand_rows_of};
ghost use Rattle.command_line.specs.Job as spec;
ghost use Rattle.command_line.specs.Reading.{Parses, Says, Tells};

use crate::app::drdad;
use crate::bad_words::tell_bad_word;
use crate::job::Job;
use crate::texts::{
    check_by, decide_by, dump_by, grow_by, in_doubt_by, init_by, limits_by, options_by, pipe_by,
    room_by, serve_by, tables_by,
};
use clap::ArgMatches;
use clap::error::ErrorKind;
use std::alloc::{AllocError, Global};
use std::convert::AsStr;
use std::fmt::Write;
use thiserror::Error;

/// Why the words ask for nothing.
#[derive(Clone, Copy, Debug, PartialEq, Eq, Error)]
pub enum BadWords {
    /// They are no command line of the program, or ask for help.
    #[error("bad arguments")]
    NoJob,
    /// Memory was refused.
    #[error("no memory")]
    NoMemory,
}

impl From<AllocError> for BadWords {
    ghost use Rattle.command_line.specs.declared.words.BadWords.TheVariants.{NoMemory};

    ghost from_gives = { λ _ e. e ≡ NoMemory };

    fn from(_: AllocError) -> BadWords {
        BadWords::NoMemory
    }
}

/// What the parser of words finds in words of `drdad`, the program's name first. What it has to say of
/// a mistake, or of a request for help, is appended to `said`, as far as memory allows. `NoJob` comes
/// exactly where the words are none of the grammar's.
pub fn parse_words<'a, S: AsStr>(
    alloc: Global,
    words: &'a [S],
    said: &mut String,
) -> Result<ArgMatches<'a>, BadWords>
    ensures parses { Parses subcommand_rows_of (map S.text words.now) result }
    ensures tells { Tells result (string_bytes said.old) (string_bytes said.new) }
{
    match drdad(alloc)?.try_get_matches_from(words) {
        Ok(matches) => Ok(matches),
        Err(error) => match error.kind() {
            ErrorKind::OutOfMemory => Err(BadWords::NoMemory),
            _ => {
                let _ = writeln!(said, "{error}");
                Err(BadWords::NoJob)
            }
        },
    }
}

/// The job that words of `drdad` ask for, the program's name first, lent from them. `NoJob` comes
/// exactly where they ask for none: they are none of the grammar's, or a number is none, a port has
/// more than 16 bits, seconds are 0 or more than 4,294,967, a U:P has no colon, or a login is asked for and there
/// is none or two, or an XID is spelled otherwise than `xid_text` or `xid_word` does, but for the case of its digits, or is
/// none. What the parser of words has to say is appended to `said`, or a line that says which word is bad.
pub fn job_of<'a, S: AsStr>(
    alloc: Global,
    words: &'a [S],
    said: &mut String,
) -> Result<Job<'a>, BadWords>
    ensures job { Says (spec.said (map S.text words.now)) result }
    ensures tells { Tells result (string_bytes said.old) (string_bytes said.new) }
{
    let matches = parse_words(alloc, words, said)?;
    match job_in(alloc, &matches) {
        Ok(Some(job)) => Ok(job),
        Ok(None) => {
            tell_bad_word(&matches, said);
            Err(BadWords::NoJob)
        }
        Err(AllocError) => Err(BadWords::NoMemory),
    }
}

// What the subcommand that was found asks for.
fn job_in<'a>(alloc: Global, matches: &ArgMatches<'a>) -> Result<Option<Job<'a>>, AllocError>
    ensures { IfOk result (λ job. option_map spec.plain_job job ≡ spec.said_by [] (subcommand_rows_of matches.now)) }
{
    let Some((name, given)) = matches.subcommand() else {
        return Ok(None);
    };
    match name {
        "init" => Ok(init_in(given)),
        "pipe" => Ok(pipe_in(given)),
        "serve" => Ok(serve_in(given)),
        "indoubt" => Ok(in_doubt_in(given)),
        "decide" => decide_in(alloc, given),
        "room" => Ok(room_in(given)),
        "check" => Ok(check_in(given)),
        "tables" => Ok(tables_in(given)),
        "dump" => Ok(dump_in(given)),
        "grow" => Ok(grow_in(given)),
        "version" => Ok(Some(Job::Version)),
        _ => Ok(None),
    }
}

fn init_in<'a>(given: &ArgMatches<'a>) -> Option<Job<'a>>
    ensures { option_map spec.plain_job result ≡ spec.init_by (spec.value (rows_of (found_of given.now)) (codes "path")) (spec.value (rows_of (found_of given.now)) (codes "size")) (spec.value (rows_of (found_of given.now)) (codes "rdb")) }
{
    init_by(
        given.get_str("path"),
        given.get_str("size"),
        given.get_str("rdb"),
    )
}

fn pipe_in<'a>(given: &ArgMatches<'a>) -> Option<Job<'a>>
    ensures { option_map spec.plain_job result ≡ spec.pipe_by (spec.value (rows_of (found_of given.now)) (codes "path")) (spec.value (rows_of (found_of given.now)) (codes "rdb")) (spec.value (rows_of (found_of given.now)) (codes "user")) (spec.value (rows_of (found_of given.now)) (codes "user-file")) }
{
    pipe_by(
        given.get_str("path"),
        given.get_str("rdb"),
        given.get_str("user"),
        given.get_str("user-file"),
    )
}

fn serve_in<'a>(given: &ArgMatches<'a>) -> Option<Job<'a>>
    ensures { option_map spec.plain_job result ≡ spec.serve_by (spec.value (rows_of (found_of given.now)) (codes "path")) (spec.value (rows_of (found_of given.now)) (codes "port")) (spec.value (rows_of (found_of given.now)) (codes "user")) (spec.value (rows_of (found_of given.now)) (codes "user-file")) (spec.options_by (spec.value (rows_of (found_of given.now)) (codes "count")) (spec.value (rows_of (found_of given.now)) (codes "idle")) (spec.limits_by (spec.value (rows_of (found_of given.now)) (codes "login")) (spec.value (rows_of (found_of given.now)) (codes "cursor-bytes")) (spec.value (rows_of (found_of given.now)) (codes "all-bytes"))) (spec.value (rows_of (found_of given.now)) (codes "log")) (spec.value (rows_of (found_of given.now)) (codes "end-when-failed"))) }
{
    serve_by(
        given.get_str("path"),
        given.get_str("port"),
        given.get_str("user"),
        given.get_str("user-file"),
        options_by(
            given.get_str("count"),
            given.get_str("idle"),
            limits_by(
                given.get_str("login"),
                given.get_str("cursor-bytes"),
                given.get_str("all-bytes"),
            ),
            given.get_str("log"),
            given.get_str("end-when-failed"),
        ),
    )
}

fn in_doubt_in<'a>(given: &ArgMatches<'a>) -> Option<Job<'a>>
    ensures { option_map spec.plain_job result ≡ spec.in_doubt_by (spec.value (rows_of (found_of given.now)) (codes "path")) }
{
    in_doubt_by(given.get_str("path"))
}

fn decide_in<'a>(alloc: Global, given: &ArgMatches<'a>) -> Result<Option<Job<'a>>, AllocError>
    ensures { IfOk result (λ job. option_map spec.plain_job job ≡ spec.decide_by (spec.value (rows_of (found_of given.now)) (codes "path")) (spec.value (rows_of (found_of given.now)) (codes "xid")) (spec.value (rows_of (found_of given.now)) (codes "decision")) (spec.value (rows_of (found_of given.now)) (codes "branch")) (spec.value (rows_of (found_of given.now)) (codes "last"))) }
{
    decide_by(
        alloc,
        given.get_str("path"),
        given.get_str("xid"),
        given.get_str("decision"),
        given.get_str("branch"),
        given.get_str("last"),
    )
}

fn room_in<'a>(given: &ArgMatches<'a>) -> Option<Job<'a>>
    ensures { option_map spec.plain_job result ≡ spec.room_by (spec.value (rows_of (found_of given.now)) (codes "path")) }
{
    room_by(given.get_str("path"))
}

fn check_in<'a>(given: &ArgMatches<'a>) -> Option<Job<'a>>
    ensures { option_map spec.plain_job result ≡ spec.check_by (spec.value (rows_of (found_of given.now)) (codes "path")) }
{
    check_by(given.get_str("path"))
}

fn tables_in<'a>(given: &ArgMatches<'a>) -> Option<Job<'a>>
    ensures { option_map spec.plain_job result ≡ spec.tables_by (spec.value (rows_of (found_of given.now)) (codes "path")) }
{
    tables_by(given.get_str("path"))
}

fn dump_in<'a>(given: &ArgMatches<'a>) -> Option<Job<'a>>
    ensures { option_map spec.plain_job result ≡ spec.dump_by (spec.value (rows_of (found_of given.now)) (codes "path")) }
{
    dump_by(given.get_str("path"))
}

fn grow_in<'a>(given: &ArgMatches<'a>) -> Option<Job<'a>>
    ensures { option_map spec.plain_job result ≡ spec.grow_by (spec.value (rows_of (found_of given.now)) (codes "path")) (spec.value (rows_of (found_of given.now)) (codes "new")) (spec.value (rows_of (found_of given.now)) (codes "size")) }
{
    grow_by(
        given.get_str("path"),
        given.get_str("new"),
        given.get_str("size"),
    )
}
