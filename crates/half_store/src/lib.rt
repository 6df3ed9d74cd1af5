//! The layout of a store on its disk: its head, two halves, and which of them is active.
#![tactic(auto)]

mod active;
mod begin;
mod errors;
mod formatting;
mod fresh;
mod head;
mod header;
mod image;
mod layout;
mod opening;
mod switching;

pub use active::Active;
pub use begin::begin_image;
pub use errors::{FormatError, OpenError};
pub use formatting::{format, is_store};
pub use fresh::push_head;
pub use head::{MARK, MARK_BYTES};
pub use header::{Header, Layout};
pub use image::ImageWriter;
pub use layout::{FIRST_AT, Half, half_bytes};
pub use opening::open;
