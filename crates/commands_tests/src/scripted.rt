//! A core that always gives one answer.

ghost use Rattle.std.specs.Prelude.{⊤};

use command_kit::Ask;
use core_calls::{Answer, CoreCall, ParameterTypes, Refusal, SqlFault};
use row_values::Value;
use std::alloc::Global;
use tables::RowList;
use xa_calls::{InvalidRequest, Request, XaCode, Xids};

/// An answer.
#[derive(Clone, Copy)]
pub enum Script {
    Count(u32),
    Refused(SqlFault),
    Xa(XaCode),
    Done,
    InGlobal,
    NoMemory,
    Closed,
    /// No parameters.
    Input,
    /// The rows that are there, once.
    Rows,
    /// The branches in doubt that are there, once.
    InDoubt,
}

const SCRIPTS: [(&'static str, Script); 19] = [
    ("no-row", Script::Count(0)),
    ("one-row", Script::Count(1)),
    ("done", Script::Done),
    ("in-global", Script::InGlobal),
    ("no-memory", Script::NoMemory),
    ("closed", Script::Closed),
    ("other-values", Script::Refused(SqlFault::ParameterMismatch)),
    ("unknown-table", Script::Refused(SqlFault::TableUnknown)),
    ("no-parameters", Script::Input),
    ("rows", Script::Rows),
    ("in-doubt", Script::InDoubt),
    ("xa-done", Script::Xa(XaCode::Done)),
    ("xa-read-only", Script::Xa(XaCode::ReadOnly)),
    ("xa-rolled-back", Script::Xa(XaCode::RolledBack)),
    ("xa-unknown", Script::Xa(XaCode::Unknown)),
    ("xa-invalid", Script::Xa(XaCode::Invalid)),
    ("xa-protocol", Script::Xa(XaCode::Protocol)),
    ("xa-duplicate", Script::Xa(XaCode::Duplicate)),
    ("xa-limit", Script::Xa(XaCode::Limit)),
];

/// The answer that a word names.
pub fn script_of(word: &str) -> Option<Script> {
    for (name, script) in SCRIPTS {
        if name == word {
            return Some(script);
        }
    }
    None
}

/// Gives one answer, counts how often it was asked, and notes the numbers that it was given as parameters, a digit each, and the call of a
/// branch that it was asked for last.
#[derive(Drop)]
pub struct Scripted {
    pub alloc: Global,
    pub script: Script,
    pub rows: Option<RowList>,
    pub in_doubt: Option<Xids>,
    pub asked: u32,
    pub seen: u64,
    pub request: Option<Result<Request, InvalidRequest>>,
}

fn with_digits(seen: u64, parameters: &[Value<'_>]) -> u64 {
    let mut seen = seen;
    for value in parameters {
        if let Value::Number(number) = value {
            seen = seen
                .wrapping_mul(10)
                .wrapping_add(u64::from_ne_bytes(number.to_ne_bytes()));
        }
    }
    seen
}

// The answer of a script that gives nothing away.
fn plain(script: Script) -> Answer {
    match script {
        Script::Count(count) => Answer::Count(count),
        Script::Refused(fault) => Answer::Refused(Refusal::Unfit(fault)),
        Script::Xa(code) => Answer::Xa(code),
        Script::Done => Answer::Done,
        Script::InGlobal => Answer::InGlobal,
        Script::NoMemory => Answer::NoMemory,
        _ => Answer::Closed,
    }
}

impl Scripted {
    /// No branches in doubt, no row, and never asked.
    pub fn new(alloc: Global, script: Script) -> Scripted {
        Scripted {
            alloc,
            script,
            rows: None,
            in_doubt: None,
            asked: 0,
            seen: 0,
            request: None,
        }
    }

    fn note(&mut self, call: &CoreCall<'_, '_, '_>) {
        self.asked = self.asked.saturating_add(1);
        match call {
            CoreCall::Run { parameters, .. } => self.seen = with_digits(self.seen, parameters),
            CoreCall::Xa(request) => self.request = Some(*request),
            _ => {}
        }
    }

    fn listed(&mut self) -> Answer {
        match self.rows.take() {
            Some(rows) => Answer::Rows(rows),
            None => Answer::NoMemory,
        }
    }

    fn recovered(&mut self) -> Answer {
        match self.in_doubt.take() {
            Some(xids) => Answer::InDoubt(xids),
            None => Answer::NoMemory,
        }
    }
}

impl Ask for Scripted {
    ghost asks = { λ _ _ _ _. ⊤ };

    fn ask(&mut self, call: &CoreCall<'_, '_, '_>) -> Answer {
        self.note(call);
        match self.script {
            Script::Input => Answer::Input(ParameterTypes::new(Vec::new(self.alloc))),
            Script::Rows => self.listed(),
            Script::InDoubt => self.recovered(),
            script => plain(script),
        }
    }
}
