//! Parses a text.

ghost use Rattle.std.specs.Prelude.{◌≡◌, ◌<◌, ◌≤◌, length, Ok, Err, IfErr, IfOk};
ghost use Rattle.drda_words.specs.Excuse.{Answers};
ghost use Rattle.sql_lex.specs.Tokens.{tokens};
ghost use Rattle.sql_text.specs.Grammar.{IsStatement, Tree};
ghost use Rattle.sql_text.specs.Checks as checks;
ghost use Rattle.sql_text.specs.Place.{Explains};
ghost use Rattle.sql_text.specs.Slices.{StandFrom, slices_of};
ghost use Rattle.sql_text.specs.Text as spec;
ghost use Rattle.sql_text.specs.Text.{but_memory};
ghost use Rattle.sql_text.specs.Valid.{IsValidStatement};
ghost use Rattle.sql_text.specs.declared.error.SqlError.TheVariants as error;

use crate::check::{Refusal, refusal_of};
use crate::draft::{Draft, command};
use crate::error::SqlError;
use crate::fault::Fault;
use crate::statement::whole_command;
use crate::tree::Statement;
use sql_lex::Cursor;
use std::alloc::Global;

/// The most bytes of a statement's text.
const MAX_TEXT_BYTES: usize = 32_767;

fn refusal_error(length: usize, refusal: Refusal) -> SqlError
    ensures { result ≡ spec.refusal_error length refusal }
{
    match refusal {
        Refusal::Limit => SqlError::Limit,
        Refusal::Wrong(left) => SqlError::SqlText {
            at: length.saturating_sub(left),
        },
        Refusal::KeyUnknown => SqlError::KeyUnknown,
    }
}

fn fault_error(length: usize, fault: Fault) -> SqlError
    ensures { result ≡ spec.fault_error length fault }
{
    match fault {
        Fault::Unexpected(left) => SqlError::SqlText {
            at: length.saturating_sub(left),
        },
        Fault::Deep => SqlError::Limit,
        Fault::Memory => SqlError::NoMemory,
    }
}

/// The statement, unless a check refuses it.
fn judged<'a>(
    alloc: Global,
    length: usize,
    markers: usize,
    draft: Draft<'a>,
) -> Result<Statement<'a>, SqlError>
    ensures { Answers (λ s. s) but_memory result (spec.answer_by length markers draft.entry (checks.refusal_of markers draft.entry)) }
{
    match refusal_of(markers, &draft) {
        None => {
            let command = command(alloc, draft)?;
            Ok(Statement { command, markers })
        }
        Some(refusal) => {
            drop(draft);
            Err(refusal_error(length, refusal))
        }
    }
}

#[tactic(auto, unfolding(crate::specs::Text::reading, crate::specs::Text::answer))]
fn read<'a>(alloc: Global, text: &'a [u8]) -> Result<Statement<'a>, SqlError>
    requires { length text.now ≤ 32767 }
    ensures { Answers (λ s. s) but_memory result (spec.reading text.now) }
{
    match whole_command(alloc, Cursor::new(text)) {
        Ok((draft, rest)) => judged(alloc, text.len(), rest.markers(), draft),
        Err(fault) => Err(fault_error(text.len(), fault)),
    }
}

/// The statement that a text is. Its names and literals borrow the text as it spells them.
///
/// A text over 32,767 bytes is `Limit`. Else the tokens are read from left to right, up to the
/// first that no statement can have there, or the end where none can end: that is `SqlText`, and
/// the tokens before it begin a statement. Parentheses and NOTs nested over 64 deep are `Limit`
/// where they are met. What is in the grammar is then checked: more than 128 markers, 64 columns,
/// 4 columns of the key or 64 selected names, or a length over 2,000, are `Limit`; then the first
/// length of 0 is `SqlText`; and then a column or a column of the key that repeats one of its list
/// is `SqlText`, and a key that names no column is `KeyUnknown`.
pub fn parse<'a>(alloc: Global, text: &'a str) -> Result<Statement<'a>, SqlError>
    ensures too_long { 32767 < length text.now → result ≡ Err error.Limit }
    // What is parsed is in the grammar.
    ensures found { IfOk result (λ s. (d : Tree) × IsStatement d (tokens text.now) × (spec.answer text.now d ≡ Ok s)) }
    // What is in the grammar is parsed, or refused by what is checked behind it.
    ensures only { (d : Tree) → length text.now ≤ 32767 → IsStatement d (tokens text.now) → Answers (λ s. s) but_memory result (spec.answer text.now d) }
    // What is refused is refused for a reason that stands where it says: at the first token that
    // no statement can have there, at what a check refuses, or for a limit.
    ensures refused { IfErr result (λ e. Explains text.now e) }
    // What is parsed is what plain words say.
    ensures valid { IfOk result IsValidStatement }
    // Its names and literals are slices of the text, one behind the other.
    ensures places { IfOk result (λ s. StandFrom text.now 0 (slices_of s)) }
    ensures exact { length text.now ≤ 32767 → Answers (λ s. s) but_memory result (spec.reading text.now) }
{
    sql_lex::laws::tokens_are_spelled_so();
    sql_lex::laws::texts_are_utf8();
    sql_lex::laws::markers_are_numbered();
    sql_lex::laws::parts_stand_in_the_text();
    sql_lex::laws::tokens_lie_apart();
    let bytes = text.as_bytes();
    if bytes.len() > MAX_TEXT_BYTES {
        return Err(SqlError::Limit);
    }
    read(alloc, bytes)
}
