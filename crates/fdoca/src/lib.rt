//! Descriptors and rows of FD:OCA (Formatted Data Object Content Architecture, DRDA V5 volume 2), in
//! which DRDA sends the parameters of a statement and the rows of its answer: read as values that are
//! lent from their bytes, and written from rows that lie encoded.
#![tactic(auto)]

mod descriptor;
mod fault;
mod field;
pub mod laws;
mod measuring;
mod row;
mod values;
mod writing;

pub use descriptor::Descriptor;
pub use fault::DescriptorFault;
pub use field::{Field, FieldType};
pub use measuring::row_length;
pub use row::read_row;
pub use values::Values;
pub use writing::{are_places, write_descriptor, write_row};
