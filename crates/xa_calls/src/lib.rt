//! The calls of X/Open XA (C193) as a SYNCCTL of DRDA spells them: the bytes of XIDs, the numbers of
//! calls, flags and return codes, and the call that these name.
#![tactic(auto)]

mod code;
mod flags;
pub mod laws;
mod request;
mod sync_type;
mod xid;
mod xids;

pub use code::XaCode;
pub use flags::Flags;
pub use request::{Ending, InvalidRequest, Request, Verb};
pub use sync_type::SyncType;
pub use xid::{BadXid, Xid};
pub use xids::{MAX_IN_DOUBT, Xids};
