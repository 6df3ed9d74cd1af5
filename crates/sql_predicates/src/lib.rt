//! What the literals and names of a statement stand for, and which rows a WHERE matches.
#![tactic(auto)]

mod bind;
mod bytes;
mod constant;
mod evaluate;
mod filter;
mod key;
mod name;
mod number;
mod operand;
mod selection;
mod test;

pub use constant::Constant;
pub use filter::Filter;
pub use key::{fixed_key, key_of_values};
pub use name::{column_place, table_name};
pub use operand::{Operand, are_one_class, kind_class};
pub use selection::selected_places;
