//! The forms of rows of two columns, of which the second comes first in the key.

use key_map::{compare, put_row_form, row_form, sort_form};
use row_values::{Column, Kind, RowRef, Schema, is_key};
use std::alloc::Global;
use std::test::Fail;

// `PRIMARY KEY (T, N)`.
fn text_and_number(alloc: Global) -> Result<Schema, Fail> {
    let mut columns = Vec::new(alloc);
    for (name, kind, length) in &[("N", Kind::Integer, 0), ("T", Kind::VarChar, 3)] {
        columns.push(Column {
            name: String::from_str(alloc, name)?,
            kind: *kind,
            is_nullable: false,
            length: *length,
        })?;
    }
    Ok(Schema::new(columns, [1, 0].to_vec(alloc)?)?)
}

// In the order of their keys, which rise: by the text, of which a zero byte is the least, and then by
// the number.
const ROWS: [&'static [u8]; 8] = [
    &[0, 0x80, 0, 0, 0, 0, 0, 0],
    &[0, 255, 255, 255, 255, 0, 0, 0],
    &[0, 0, 0, 0, 0, 0, 0, 0],
    &[0, 0x7F, 255, 255, 255, 0, 0, 0],
    &[0, 0x80, 0, 0, 0, 0, 0, 1, 0],
    &[0, 0x80, 0, 0, 0, 0, 0, 2, 0, 0],
    &[0, 0x80, 0, 0, 0, 0, 0, 2, 0, 1],
    &[0, 0x80, 0, 0, 0, 0, 0, 1, b'a'],
];

#[test]
fn forms_stand_as_the_rows_do(rt: HostRuntime) -> Result<(), Fail> {
    let alloc = rt.alloc();
    let schema = text_and_number(alloc)?;
    for i in 0..ROWS.len() {
        let form = row_form(alloc, &schema, ROWS[i])?;
        for j in 0..ROWS.len() {
            assert_eq!(rt; compare(&schema, &form, ROWS[j]), i.cmp(&j), "{i} and {j}");
        }
    }
    Ok(())
}

#[test]
fn a_row_has_the_form_of_its_key(rt: HostRuntime) -> Result<(), Fail> {
    let alloc = rt.alloc();
    let schema = text_and_number(alloc)?;
    for row in &ROWS {
        let form = row_form(alloc, &schema, row)?;
        let Ok(row) = RowRef::parse(&schema, row) else {
            return Err(Fail::from("this is no row"));
        };
        let key = row.key(alloc)?;
        if !is_key(&schema, &key) {
            return Err(Fail::from("this is no key"));
        }
        assert_eq!(rt; form, sort_form(alloc, &schema, &key)?);
    }
    Ok(())
}

// Bytes of which the key can't be read as a whole, and the form of what can be read.
const SHORT: [(&'static [u8], &'static [u8]); 4] = [
    (&[], &[]),
    (&[7], &[]),
    (&[0, 0, 0, 0, 5], &[1, 0x80, 0, 0, 0, 0, 0, 0, 5]),
    (&[255, 0, 0, 1, 200], &[2, 200, 0, 0, 0]),
];

#[test]
fn what_can_be_read_has_a_form(rt: HostRuntime) -> Result<(), Fail> {
    let alloc = rt.alloc();
    let schema = text_and_number(alloc)?;
    for (bytes, want) in SHORT {
        assert_eq!(rt; row_form(alloc, &schema, bytes)?.as_slice(), want);
        assert!(rt; compare(&schema, want, bytes).is_eq(), "{bytes:?}");
    }
    Ok(())
}

#[test]
fn forms_are_written_one_behind_another(rt: HostRuntime) -> Result<(), Fail> {
    let alloc = rt.alloc();
    let schema = text_and_number(alloc)?;
    let mut forms = Vec::new(alloc);
    let mut want = Vec::new(alloc);
    for (bytes, form) in SHORT {
        put_row_form(&mut forms, &schema, bytes)?;
        want.extend_from_slice(form)?;
        assert_eq!(rt; forms, want, "{bytes:?}");
    }
    Ok(())
}
