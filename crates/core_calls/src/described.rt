//! What a statement is described by.

ghost use Rattle.std.specs.Prelude.{◌≡◌, ◌≤◌, length, true};
ghost use Rattle.std.specs.Arc.{arc_value};
ghost use Rattle.tables.specs.RowList.{is_selection};

use crate::call::MAX_PARAMETERS;
use row_values::{Kind, Schema};
use std::alloc::Global;
use std::marker::Model;
use std::sync::Arc;

/// The columns of a statement's rows, 64 at most, by their places in the schema of its table, which is
/// shared with the view that gave it. A statement that is no SELECT has none.
#[derive(Debug, Drop)]
pub struct OutputColumns {
    schema: Arc<Schema, Global>,
    selected: Vec<u8>,
}

impl Model for OutputColumns {
    ghost use Rattle.std.specs.Prelude.{◌≡◌, true};
    ghost use Rattle.std.specs.Arc.{arc_value};
    ghost use Rattle.tables.specs.RowList.{is_selection};
    ghost use Rattle.core_calls.specs.Described.{Selection};

    ghost Value = { Selection };

    ghost view = { λ c. record { schema = arc_value c.schema; selected = c.selected.items } };

    ghost invariant = { λ c. is_selection (arc_value c.schema) c.selected.items ≡ true };
}

impl OutputColumns {
    /// The columns of a schema at these places, from 0: at most 64, a place perhaps more than once.
    pub fn new(schema: Arc<Schema, Global>, selected: Vec<u8>) -> OutputColumns
        requires { is_selection (arc_value schema) selected.items ≡ true }
        ensures { result ≡ record { schema = arc_value schema; selected = selected.items } }
    {
        OutputColumns { schema, selected }
    }

    /// The schema that the columns are of.
    pub fn schema(&self) -> &Schema
        ensures { result.now ≡ self.now.schema }
    {
        &self.schema
    }

    /// The places of the columns, in their order.
    pub fn selected(&self) -> &[u8]
        ensures places { result.now ≡ self.now.selected }
        ensures good { is_selection self.now.schema self.now.selected ≡ true }
    {
        self.selected.as_slice()
    }
}

/// What a parameter is described as: it takes NULL, and has no name.
#[derive(Clone, Copy, Debug, PartialEq, Eq)]
pub struct ParameterType {
    pub kind: Kind,
    /// The most bytes of a text or of bytes; 0 for numbers.
    pub limit: u16,
}

/// The types of a statement's parameters, 128 at most, in the order of its markers.
#[derive(Debug, Drop)]
pub struct ParameterTypes {
    types: Vec<ParameterType>,
}

impl Model for ParameterTypes {
    ghost use Rattle.std.specs.Prelude.{◌≤◌, List, length};
    ghost use Rattle.core_calls.specs.declared.described.ParameterType.{ParameterType};

    ghost Value = { List ParameterType };

    ghost view = { λ t. t.types.items };

    ghost invariant = { λ t. length t.types.items ≤ 128 };
}

impl ParameterTypes {
    /// These types, 128 at most.
    pub fn new(types: Vec<ParameterType>) -> ParameterTypes
        requires { length types.items ≤ MAX_PARAMETERS }
        ensures { result ≡ types.items }
    {
        ParameterTypes { types }
    }

    /// The types.
    pub fn as_slice(&self) -> &[ParameterType]
        ensures types { result.now ≡ self.now }
        ensures limit { length self.now ≤ MAX_PARAMETERS }
    {
        self.types.as_slice()
    }
}
