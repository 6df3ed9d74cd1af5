//! What the commands that open the database ask, reply and keep (DRDA V5 volume 1, "Connection Flows"; volume 3,
//! EXCSAT, ACCSEC, SECCHK, ACCRDB), and what a refused command is answered. Nothing here asks the core.
#![tactic(auto)]

mod access;
mod answer;
mod levels;
mod reply;
mod session;
mod settings;

pub use answer::{Answer, AtOnce, answered_at_once, refused};
pub use session::{Agreed, Session, fresh_session};
pub use settings::{Settings, SettingsError};
