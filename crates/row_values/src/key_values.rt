//! The values of a key, one after another.

ghost use Rattle.std.specs.Iterator.{YieldsFirstBy, item_count};
ghost use Rattle.std.specs.Prelude.{IsSome, drop};
ghost use Rattle.row_values.specs.Value.{value_of};
ghost use Rattle.row_values.specs.Schema.{key_columns};
ghost use Rattle.row_values.specs.Row.{values_at};

use crate::judged::take_value;
use crate::schema::Schema;
use crate::value::Value;

/// The values of a key, one for each key column, in the order of PRIMARY KEY. Texts and bytes are
/// lent from the key. Nothing of the key is judged again.
#[derive(Clone, Copy, Debug)]
pub struct KeyValues<'a> {
    schema: &'a Schema,
    place: usize,
    rest: &'a [u8],
    ghost judged: { IsSome (values_at (drop place (key_columns schema.now)) rest.now) },
}

impl<'a> KeyValues<'a> {
    ghost use Rattle.std.specs.Prelude.{◌≡◌, true};
    ghost use Rattle.row_values.specs.KeyValues.{values_left};
    ghost use Rattle.row_values.specs.Key.{is_key, key_values};

    /// The values of the bytes, of which it is known that they are a key of the schema.
    pub fn new(schema: &'a Schema, key: &'a [u8]) -> KeyValues<'a>
        requires { is_key schema.now key.now ≡ true }
        ensures { values_left result ≡ key_values schema.now key.now }
    {
        KeyValues {
            schema,
            place: 0,
            rest: key,
        }
    }
}

impl<'a> Iterator for KeyValues<'a> {
    ghost use Rattle.row_values.specs.KeyValues.{values_left};

    type Item = Value<'a>;

    ghost next_gives = { YieldsFirstBy value_of values_left };

    ghost remaining = { item_count values_left };

    fn next(&mut self) -> Option<Value<'a>> {
        if self.place >= self.schema.key().len() {
            return None;
        }
        let column = self.schema.key_column(self.place);
        let (value, rest) = take_value(column, self.rest);
        self.place += 1;
        self.rest = rest;
        Some(value)
    }
}
