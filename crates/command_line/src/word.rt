//! Words of a subcommand.

ghost use Rattle.command_line.specs.Grammar as grammar;

use clap::{Arg, ArgAction};
use std::alloc::Global;

/// How a word is given.
#[derive(Clone, Copy)]
pub(crate) enum Kind<'a> {
    /// By its place.
    Word,
    /// By its place, and it may not be left out.
    NeededWord,
    /// By `--ID VALUE`. Help calls the value so.
    Option(&'a str),
    /// By `--ID VALUE`, and it may not be left out. Help calls the value so.
    NeededOption(&'a str),
    /// By `--ID VALUE`. Help calls the value so, and the second is what it is where none is given.
    OptionOr(&'a str, &'a str),
    /// By `--ID` alone.
    Flag,
}

/// A word of a subcommand.
#[derive(Clone, Copy)]
pub(crate) struct Word<'a> {
    pub(crate) id: &'a str,
    pub(crate) kind: Kind<'a>,
    /// What help tells of it.
    pub(crate) help: &'a str,
}

/// The word as an argument.
pub(crate) fn arg_of<'a>(alloc: Global, word: &Word<'a>) -> Arg<'a>
    ensures { grammar.IsWord (grammar.rule_for word.now) result }
{
    let arg = Arg::new(alloc, word.id).help(word.help);
    match word.kind {
        Kind::Word => arg,
        Kind::NeededWord => arg.required(true),
        Kind::Option(value) => arg.long(word.id).value_name(value),
        Kind::NeededOption(value) => arg.long(word.id).value_name(value).required(true),
        Kind::OptionOr(value, default) => {
            arg.long(word.id).value_name(value).default_value(default)
        }
        Kind::Flag => arg.long(word.id).action(ArgAction::SetTrue),
    }
}
