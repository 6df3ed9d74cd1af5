//! Objects of the DDM architecture: a text is cut into objects, each a code point and its data, and
//! the data of a container are again objects. They are read where they lie, as slices of their
//! source, and written one in the other into one buffer.
//!
//! Public source: DRDA V5 volume 3 (Distributed Data Management Architecture).
#![tactic(auto)]

mod builder;
pub mod code_point;
mod contents;
mod fault;
pub mod laws;
mod object;
mod parts;
mod writing;

pub use builder::Builder;
pub use code_point::CodePoint;
pub use contents::{find_in, parts_of};
pub use fault::{FindFault, ObjFault};
pub use object::Object;
pub use parts::Parts;
pub use writing::{Opened, close, open, put};
