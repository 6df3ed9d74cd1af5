//! The judge of commands: the commands of the profile and what each reads, what one brought, and the order
//! in which it is refused. It knows nothing of what a command does.
#![tactic(auto)]

mod given;
mod judging;
mod refusal;
mod stage;
mod table;
mod texts;
mod values;

pub use given::{Given, Occurs};
pub use judging::{Accepted, judge};
pub use refusal::{Refusal, SyntaxError};
pub use stage::{Mechanism, Stage};
pub use table::{Command, ItemKind};
pub use values::{DescribedData, DescribedSide};
