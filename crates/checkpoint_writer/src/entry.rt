//! The rows of a catalogue.
ghost use Rattle.std.specs.Prelude.{◌≡◌, ◌≤◌, ◌++◌, IfOk, OnOk, length, option_map, true};
ghost use Rattle.std.specs.Int.{to_be_bytes, w32};
ghost use Rattle.row_values.specs.Schema.{is_name};
ghost use Rattle.row_values.specs.Bytes.{Reads};
ghost use Rattle.row_pages.specs.Laying.{IsShort};
ghost use Rattle.checkpoint_writer.specs.Catalogue.{EntryIsRead, entry_at, entry_bytes, entry_of, numbers_at, place_of};

use row_values::{ReadError, Schema, put_name, split_name};
use std::alloc::{AllocError, Global};

/// Where a table lies in an image.
#[derive(Drop)]
pub struct TablePlace<'a> {
    pub name: &'a str,
    pub schema: &'a Schema,
    /// The number of its first page, from 0; 0 where it has no rows.
    pub first_page: u32,
    pub pages: u32,
}

/// A table of a store, as the catalogue has it.
#[derive(Drop)]
pub struct StoredTable {
    pub name: String,
    pub schema: Schema,
    /// The number of its first page, from 0.
    pub first_page: u32,
    pub pages: u32,
}

/// Appends the two numbers behind a schema.
fn put_numbers(row: &mut Vec<u8>, first_page: u32, pages: u32) -> Result<(), AllocError>
    ensures { OnOk result (row.new.items ≡ row.old.items ++ (to_be_bytes w32 first_page ++ to_be_bytes w32 pages)) }
{
    row.extend_from_slice(&first_page.to_be_bytes())?;
    row.extend_from_slice(&pages.to_be_bytes())?;
    Ok(())
}

/// The row of a table, in new memory.
pub(crate) fn entry_row(alloc: Global, place: &TablePlace<'_>) -> Result<Vec<u8>, AllocError>
    requires { is_name place.now.name.now ≡ true }
    ensures row { IfOk result (λ row. row.items ≡ entry_bytes (place_of place.now)) }
    ensures short { IfOk result (λ row. IsShort row.items) }
{
    let mut row = Vec::new(alloc);
    put_name(&mut row, place.name)?;
    let _short = place.schema.length();
    place.schema.write(&mut row)?;
    put_numbers(&mut row, place.first_page, place.pages)?;
    Ok(row)
}

/// The two numbers that bytes are, if they are no others.
fn numbers(bytes: &[u8]) -> Option<(u32, u32)>
    ensures { result ≡ numbers_at bytes.now }
{
    match bytes {
        [a, b, c, d, e, f, g, h] => Some((
            u32::from_be_bytes([*a, *b, *c, *d]),
            u32::from_be_bytes([*e, *f, *g, *h]),
        )),
        _ => None,
    }
}

/// The table that a row is. Bytes that are no row of a catalogue are damaged.
#[tactic(auto, unfolding(crate::specs::Catalogue::entry_at))]
pub(crate) fn read_entry(alloc: Global, row: &[u8]) -> Result<StoredTable, ReadError>
    ensures { Reads entry_of result (entry_at row.now) }
{
    let Some((name, rest)) = split_name(row) else {
        return Err(ReadError::Damaged);
    };
    let (schema, rest) = match Schema::read(alloc, rest) {
        Ok(read) => read,
        Err(error) => return Err(error),
    };
    let Some((first_page, pages)) = numbers(rest) else {
        return Err(ReadError::Damaged);
    };
    match String::from_str(alloc, name) {
        Ok(name) => Ok(StoredTable {
            name,
            schema,
            first_page,
            pages,
        }),
        Err(_) => Err(ReadError::NoMemory),
    }
}

/// A table's row is read back.
pub fn entries_have_their_bytes()
    ensures { EntryIsRead }
{}
