//! Random openings and events.

use crate::events::{Event, Unit, World};
use crate::statements::{Kind, Statement, Told, right_claims, with_change};
use crate::store::{KEYS, NO_TABLE, TABLES, Table};

// The next number of a linear congruential generator (Knuth, volume 2, section 3.3.4).
pub fn next(seed: &mut u32) -> usize {
    *seed = seed.wrapping_mul(1_664_525).wrapping_add(1_013_904_223);
    (*seed >> 16) as usize
}

static KINDS: [Kind; 9] = [
    Kind::Create,
    Kind::Create,
    Kind::Describe,
    Kind::Insert,
    Kind::Update,
    Kind::Delete,
    Kind::Select,
    Kind::Select,
    Kind::SelectAll,
];

fn statement(seed: &mut u32) -> Statement {
    Statement {
        kind: KINDS[next(seed) % 9],
        table: next(seed) % TABLES,
        key: next(seed) % KEYS,
        value: next(seed) % 8,
    }
}

/// An event; whose it is the caller draws.
pub fn event(seed: &mut u32) -> Event {
    match next(seed) % 24 {
        0 | 1 | 2 | 3 => Event::Commit,
        4 | 5 => Event::Leave,
        6 | 7 => Event::Prepare,
        8 => Event::Lost,
        9 => Event::Excused,
        _ => Event::Ask(statement(seed)),
    }
}

// Nothing, or a value.
fn chance(seed: &mut u32) -> Option<usize> {
    if next(seed) % 2 == 0 {
        None
    } else {
        Some(next(seed) % 8)
    }
}

fn random_table(seed: &mut u32) -> Table {
    let mut table = NO_TABLE;
    table.schema = chance(seed);
    if table.schema.is_some() {
        for key in 0..KEYS {
            table.rows[key] = chance(seed);
        }
    }
    table
}

/// A unit in doubt: a creation or a row, in its own write claims. Two such units may clash with one
/// another.
fn found(seed: &mut u32) -> Unit {
    let mut statement = statement(seed);
    let mut told = Told::Changed;
    statement.kind = Kind::Insert;
    if next(seed) % 2 == 0 {
        statement.kind = Kind::Create;
        told = Told::Created;
    }
    let mut unit = Unit::idle();
    unit.claims = right_claims(statement, true);
    unit.changes = with_change(unit.changes, statement, told);
    unit.is_prepared = true;
    unit.is_found = true;
    unit
}

/// Tables, and two units in doubt behind three that have done nothing.
pub fn opening(seed: &mut u32) -> World {
    let idle = Unit::idle();
    World {
        store: [random_table(seed), random_table(seed), random_table(seed)],
        units: [idle, idle, idle, found(seed), found(seed)],
    }
}
