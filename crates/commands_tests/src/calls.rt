//! Calls that lend statements and parameters.

use core_calls::CoreCall;
use row_values::Value;
use sql_text::parse;
use std::alloc::{AllocError, Global};
use xa_calls::{InvalidRequest, Request};

// How many markers and parameters a call brings.
fn counts(call: &CoreCall<'_, '_, '_>) -> (usize, usize) {
    match call {
        CoreCall::Run {
            statement,
            parameters,
        }
        | CoreCall::Query {
            statement,
            parameters,
        } => (statement.markers, parameters.len()),
        CoreCall::Describe { statement, .. } => (statement.markers, 0),
        CoreCall::Commit | CoreCall::RollBack | CoreCall::Xa(_) | CoreCall::Lost => (0, 0),
    }
}

/// How many markers and parameters a call with one parameter brings, where the text is a statement.
pub fn lent(alloc: Global, text: &str) -> (usize, usize) {
    let Ok(statement) = parse(alloc, text) else {
        return (0, 0);
    };
    let parameters = [Value::Number(1)];
    let call = CoreCall::Run {
        statement: &statement,
        parameters: &parameters,
    };
    let counted = counts(&call);
    drop(statement);
    counted
}

/// Tells how many markers and parameters calls bring that have no statement.
pub fn tell_bare(told: &mut String) -> Result<(), AllocError> {
    let calls = [
        CoreCall::Xa(Ok(Request::Recover)),
        CoreCall::Xa(Err(InvalidRequest)),
        CoreCall::Lost,
    ];
    for call in &calls {
        let (markers, parameters) = counts(call);
        write!(told, "{markers} {parameters}; ")?;
    }
    Ok(())
}
