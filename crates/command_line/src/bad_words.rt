//! Which word is bad, and why, where the parser of words finds none that is.

use crate::logins::login_in;
use crate::numbers::{number_in, port_in, seconds_in};
use crate::texts::decision_in;
use clap::ArgMatches;
use std::fmt::Write;

/// What a size is.
pub const SIZE_WANTED: &str = "a number of bytes from 2097152 to 1073741824";

/// What the name of a database is.
pub const NAME_WANTED: &str = "1 to 18 printable characters without blanks";

const PORT_WANTED: &str = "a number from 0 to 65535";

const COUNT_WANTED: &str = "a number from 0 to 18446744073709551615";

const SECONDS_WANTED: &str = "a number of seconds from 1 to 4294967";

const XID_WANTED: &str =
    "FORMAT:GLOBAL:BRANCH, or these in three words: a decimal number below 4294967295, 1 to 64 bytes and at most 64 bytes in hexadecimal digits, - for none";

const DECISION_WANTED: &str = "commit or rollback";

/// Appends a line that says what is wanted of a word, as far as memory allows.
pub fn tell_bad(said: &mut String, word: &str, wanted: &str) {
    let _ = writeln!(said, "drdad: {word}: {wanted}");
}

/// Appends a line that says which word of a command line asks for nothing, and why, as far as memory allows. A login is not
/// told.
pub(crate) fn tell_bad_word(matches: &ArgMatches<'_>, said: &mut String) {
    let Some((name, given)) = matches.subcommand() else {
        return;
    };
    match name {
        "init" => tell_of_init(given, said),
        "pipe" => tell_of_login(given, said),
        "serve" => tell_of_serve(given, said),
        "decide" => tell_of_decide(given, said),
        "grow" => tell_of_init(given, said),
        _ => {}
    }
}

// The line of a value.
fn tell_value(said: &mut String, id: &str, value: &str, wanted: &str) {
    let _ = writeln!(said, "drdad: --{id} {value}: {wanted}");
}

fn tell_of_init(given: &ArgMatches<'_>, said: &mut String) {
    if let Some(size) = given.get_str("size") {
        tell_value(said, "size", size, SIZE_WANTED);
    }
}

fn tell_of_serve(given: &ArgMatches<'_>, said: &mut String) {
    if let Some(port) = given.get_str("port") {
        if port_in(port).is_none() {
            return tell_value(said, "port", port, PORT_WANTED);
        }
    }
    tell_of_options(given, said);
}

fn tell_of_options(given: &ArgMatches<'_>, said: &mut String) {
    if let Some(count) = given.get_str("count") {
        if number_in(count).is_none() {
            return tell_value(said, "count", count, COUNT_WANTED);
        }
    }
    if let Some(idle) = given.get_str("idle") {
        if seconds_in(idle).is_none() {
            return tell_value(said, "idle", idle, SECONDS_WANTED);
        }
    }
    tell_of_limits(given, said);
}

fn tell_of_limits(given: &ArgMatches<'_>, said: &mut String) {
    if let Some(login) = given.get_str("login") {
        if seconds_in(login).is_none() {
            return tell_value(said, "login", login, SECONDS_WANTED);
        }
    }
    if let Some(bytes) = given.get_str("cursor-bytes") {
        if number_in(bytes).is_none() {
            return tell_value(said, "cursor-bytes", bytes, COUNT_WANTED);
        }
    }
    if let Some(bytes) = given.get_str("all-bytes") {
        if number_in(bytes).is_none() {
            return tell_value(said, "all-bytes", bytes, COUNT_WANTED);
        }
    }
    tell_of_login(given, said);
}

fn tell_of_login(given: &ArgMatches<'_>, said: &mut String) {
    match (given.get_str("user"), given.get_str("user-file")) {
        (None, None) => tell_bad(said, "--user-file", "it is wanted, or --user in its place"),
        (Some(_), Some(_)) => tell_bad(said, "--user-file", "it stands in place of --user"),
        (Some(user), None) if login_in(user).is_none() => {
            tell_bad(
                said,
                "--user",
                "U:P, a user and a password with a colon between them",
            );
        }
        _ => {}
    }
}

fn tell_of_decide(given: &ArgMatches<'_>, said: &mut String) {
    let (Some(first), Some(second)) = (given.get_str("xid"), given.get_str("decision")) else {
        return;
    };
    match (given.get_str("branch"), given.get_str("last")) {
        (None, None) if decision_in(second).is_some() => tell_bad(said, first, XID_WANTED),
        (None, None) => tell_bad(said, second, DECISION_WANTED),
        (Some(branch), None) => tell_bad(said, branch, "commit or rollback is wanted behind it"),
        (Some(_), Some(last)) if decision_in(last).is_some() => tell_bad(said, first, XID_WANTED),
        (_, Some(last)) => tell_bad(said, last, DECISION_WANTED),
    }
}
