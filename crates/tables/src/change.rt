//! Changes and their bytes.

ghost use Rattle.std.specs.Prelude.{◌≡◌, ◌≤◌, ◌++◌, OnErr, OnOk, length, option_map, true};
ghost use Rattle.std.specs.String.{string_bytes};
ghost use Rattle.row_values.specs.Bytes.{Keeps, Reads};
ghost use Rattle.row_values.specs.Schema.{is_name};
ghost use Rattle.tables.specs.Change.{action_of, change_after, change_at, change_bytes, is_change, short_at};

use crate::action::Action;
use row_values::{
    MAX_KEY_BYTES, MAX_ROW_BYTES, ReadError, Schema, put_counted, put_name, split_counted,
    split_name,
};
use std::alloc::{AllocError, Global};

/// A change of a store, which can be written: its table has a name (in capitals, 1 to 30 bytes, a
/// letter and then letters, digits and `_`), its row at most 4,000 bytes, its key at most 8,012.
#[derive(Debug, Drop)]
pub struct Change {
    pub action: Action,
    ghost good: { is_change (action_of action) ≡ true },
}

impl Change {
    ghost use Rattle.tables.specs.ChangeView.{change_of};
    ghost use Rattle.tables.specs.Change.{create as create_change, put as put_change, remove as remove_change};

    /// A new table without rows.
    pub fn create(table: String, schema: Schema) -> Change
        requires { is_name (string_bytes table) ≡ true }
        ensures { change_of result ≡ create_change (string_bytes table) schema }
    {
        let _columns = schema.columns();
        Change {
            action: Action::CreateTable { table, schema },
        }
    }

    /// A row, in place of the one of its key where there is one.
    pub fn put(table: String, row: Vec<u8>) -> Change
        requires name { is_name (string_bytes table) ≡ true }
        requires short { length row.items ≤ 4000 }
        ensures { change_of result ≡ put_change (string_bytes table) row.items }
    {
        Change {
            action: Action::Put { table, row },
        }
    }

    /// The row of this key is taken out.
    pub fn remove(table: String, key: Vec<u8>) -> Change
        requires name { is_name (string_bytes table) ≡ true }
        requires short { length key.items ≤ 8012 }
        ensures { change_of result ≡ remove_change (string_bytes table) key.items }
    {
        Change {
            action: Action::Remove { table, key },
        }
    }

    /// How many bytes the change has when it is written.
    pub fn length(&self) -> usize
        ensures { result ≡ length (change_bytes (change_of self.now)) }
    {
        match &self.action {
            Action::CreateTable { table, schema } => 2 + table.len() + schema.length(),
            Action::Put { table, row } => 4 + table.len() + row.len(),
            Action::Remove { table, key } => 4 + table.len() + key.len(),
        }
    }

    /// Appends the bytes of the change. Out of memory, nothing is appended.
    pub fn write(&self, out: &mut Vec<u8>) -> Result<(), AllocError>
        ensures ok { OnOk result (out.new.items ≡ out.old.items ++ change_bytes (change_of self.now)) }
        ensures err { OnErr result (out.new.items ≡ out.old.items) }
    {
        let length = out.len();
        let written = put_action(out, &self.action);
        if written.is_err() {
            out.truncate(length);
        }
        written
    }

    /// The change whose bytes stand in front, with what follows. Bytes that are no change's are
    /// damaged.
    pub fn read(alloc: Global, bytes: &[u8]) -> Result<(Change, &[u8]), ReadError>
        ensures { Reads (λ x. (change_of x.0, x.1.now)) result (change_at bytes.now) }
    {
        let [code, rest @ ..] = bytes else {
            return Err(ReadError::Damaged);
        };
        let Some((table, rest)) = split_name(rest) else {
            return Err(ReadError::Damaged);
        };
        match read_action(alloc, *code, table, rest) {
            Ok((action, rest)) => Ok((Change { action }, rest)),
            Err(error) => Err(error),
        }
    }
}

// Appends the bytes of a change, or some of them.
fn put_action(out: &mut Vec<u8>, action: &Action) -> Result<(), AllocError>
    requires { is_change (action_of action.now) ≡ true }
    ensures ok { OnOk result (out.new.items ≡ out.old.items ++ change_bytes (action_of action.now)) }
    ensures err { OnErr result (Keeps out.old.items out.new.items) }
{
    match action {
        Action::CreateTable { table, schema } => {
            out.push(1)?;
            put_name(out, table.as_str())?;
            schema.write(out)
        }
        Action::Put { table, row } => {
            out.push(2)?;
            put_name(out, table.as_str())?;
            put_counted(out, row.as_slice())
        }
        Action::Remove { table, key } => {
            out.push(3)?;
            put_name(out, table.as_str())?;
            put_counted(out, key.as_slice())
        }
    }
}

// A change behind its code and the name of its table.
#[tactic(auto, unfolding(crate::specs::Change::change_after))]
fn read_action<'a>(
    alloc: Global,
    code: u8,
    table: &str,
    bytes: &'a [u8],
) -> Result<(Action, &'a [u8]), ReadError>
    ensures { Reads (λ x. (action_of x.0, x.1.now)) result (change_after code table.now bytes.now) }
{
    let table = String::from_str(alloc, table)?;
    match code {
        1 => match Schema::read(alloc, bytes) {
            Ok((schema, rest)) => Ok((Action::CreateTable { table, schema }, rest)),
            Err(error) => Err(error),
        },
        2 => match split_short(bytes, MAX_ROW_BYTES) {
            Some((row, rest)) => Ok((
                Action::Put {
                    table,
                    row: Vec::from_slice(alloc, row)?,
                },
                rest,
            )),
            None => Err(ReadError::Damaged),
        },
        3 => match split_short(bytes, MAX_KEY_BYTES) {
            Some((key, rest)) => Ok((
                Action::Remove {
                    table,
                    key: Vec::from_slice(alloc, key)?,
                },
                rest,
            )),
            None => Err(ReadError::Damaged),
        },
        _ => Err(ReadError::Damaged),
    }
}

// At most so many bytes behind their length in front, with what follows.
fn split_short(bytes: &[u8], limit: usize) -> Option<(&[u8], &[u8])>
    ensures { option_map (λ x. (x.0.now, x.1.now)) result ≡ short_at limit bytes.now }
{
    let (content, rest) = split_counted(bytes)?;
    if content.len() > limit {
        return None;
    }
    Some((content, rest))
}
