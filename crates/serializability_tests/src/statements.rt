//! Statements over a view: what they claim, what they are answered and what they change.

use crate::store::{Changes, Claims, KEYS, Machine, NAMES, NO_TABLE, TABLES, Table, WHOLE, part};

#[derive(Clone, Copy)]
pub enum Kind {
    Create,
    Describe,
    Insert,
    Update,
    Delete,
    Select,
    SelectAll,
}

#[derive(Clone, Copy)]
pub struct Statement {
    pub kind: Kind,
    pub table: usize,
    pub key: usize,
    pub value: usize,
}

#[derive(Clone, Copy, PartialEq)]
pub enum Told {
    NoTable,
    IsThere,
    IsFull,
    Shown,
    Created,
    Changed,
    Unchanged,
}

/// What is told, and what is shown of the table.
#[derive(Clone, Copy, PartialEq)]
pub struct Answer {
    pub told: Told,
    pub shown: Table,
}

/// What the machine as it has to be claims.
pub fn right_claims(statement: Statement, is_there: bool) -> Claims {
    let whole = WHOLE[statement.table % TABLES];
    let key = part(statement.table, statement.key);
    let (reads, writes) = match statement.kind {
        Kind::Create => (0, whole | NAMES),
        _ if !is_there => (whole, 0),
        Kind::Describe => (0, 0),
        Kind::Select => (key, 0),
        Kind::SelectAll => (whole, 0),
        Kind::Insert | Kind::Update | Kind::Delete => (0, key),
    };
    Claims { reads, writes }
}

// The keys that the table has rows of.
fn found_parts(statement: Statement, table: Table) -> u32 {
    let mut parts: u32 = 0;
    for key in 0..KEYS {
        if table.rows[key].is_some() {
            parts |= part(statement.table, key);
        }
    }
    parts
}

/// What a statement claims, by the table that it names.
pub fn claims_of(machine: Machine, statement: Statement, table: Table) -> Claims {
    let is_there = table.schema.is_some();
    let mut claims = right_claims(statement, is_there);
    match (machine, statement.kind) {
        (Machine::CreateClaimsNoNames, Kind::Create) => claims.writes &= !NAMES,
        (Machine::AbsentTableClaimsNothing, _) if !is_there => claims.reads = 0,
        (Machine::InsertClaimsNothing, Kind::Insert) if is_there => claims.writes = 0,
        (Machine::SelectClaimsNothing, Kind::Select) if is_there => claims.reads = 0,
        (Machine::SelectOfAllClaimsFoundRows, Kind::SelectAll) if is_there => {
            claims.reads = found_parts(statement, table)
        }
        _ => {}
    }
    claims
}

// What each kind is told where no table has the name, and another can be created or none; where the
// table has no row of the key, and where it has one.
static TOLD: [[Told; 4]; 7] = [
    [Told::Created, Told::IsFull, Told::IsThere, Told::IsThere],
    [Told::NoTable, Told::NoTable, Told::Shown, Told::Shown],
    [Told::NoTable, Told::NoTable, Told::Changed, Told::IsThere],
    [Told::NoTable, Told::NoTable, Told::Unchanged, Told::Changed],
    [Told::NoTable, Told::NoTable, Told::Unchanged, Told::Changed],
    [Told::NoTable, Told::NoTable, Told::Shown, Told::Shown],
    [Told::NoTable, Told::NoTable, Told::Shown, Told::Shown],
];

fn told_of(statement: Statement, table: Table, is_full: bool) -> Told {
    let at = if table.schema.is_none() {
        usize::from(is_full)
    } else if table.rows[statement.key % KEYS].is_none() {
        2
    } else {
        3
    };
    TOLD[statement.kind as usize][at]
}

fn shown(statement: Statement, table: Table) -> Table {
    let key = statement.key % KEYS;
    let mut shown = NO_TABLE;
    match statement.kind {
        Kind::Describe => shown.schema = table.schema,
        Kind::Select => shown.rows[key] = table.rows[key],
        Kind::SelectAll => shown.rows = table.rows,
        _ => {}
    }
    shown
}

/// The answer to a statement, by the table that it names and whether no other can be created.
pub fn answer_to(statement: Statement, table: Table, is_full: bool) -> Answer {
    Answer {
        told: told_of(statement, table, is_full),
        shown: shown(statement, table),
    }
}

/// The changes with what a statement changes that was told this.
pub fn with_change(changes: Changes, statement: Statement, told: Told) -> Changes {
    let table = statement.table % TABLES;
    let row = match statement.kind {
        Kind::Delete => None,
        _ => Some(statement.value),
    };
    let mut after = changes;
    match told {
        Told::Created => after.created[table] = row,
        Told::Changed => after.rows[table][statement.key % KEYS] = Some(row),
        _ => {}
    }
    after
}
