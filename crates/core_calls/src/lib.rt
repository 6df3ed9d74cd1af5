//! The words between a conversation and the core: what a conversation asks, and what it is answered.
#![tactic(auto)]

mod answer;
mod call;
mod described;
mod refusal;
mod sql_fault;
mod statement_error;

pub use answer::Answer;
pub use call::{CoreCall, MAX_PARAMETERS, Side};
pub use described::{OutputColumns, ParameterType, ParameterTypes};
pub use refusal::Refusal;
pub use sql_fault::SqlFault;
pub use statement_error::StatementError;
