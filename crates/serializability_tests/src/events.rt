//! Units that run side by side.

use crate::statements::{Answer, Statement, answer_to, claims_of, with_change};
use crate::store::{Changes, Claims, KEYS, Machine, NO_CLAIMS, Store, TABLES, applied, is_full};

/// Three conversations, and two branches that the opening found in doubt.
pub const OWNERS: usize = 5;

/// How many events a list has.
pub const EVENTS: usize = 16;

#[derive(Clone, Copy)]
pub struct Unit {
    pub changes: Changes,
    pub claims: Claims,
    /// How many statements were answered, which, and how.
    pub count: usize,
    pub asked: [Option<Statement>; EVENTS],
    pub told: [Option<Answer>; EVENTS],
    pub is_prepared: bool,
    pub is_found: bool,
}

impl Unit {
    pub fn idle() -> Unit {
        Unit {
            changes: Changes {
                created: [None; TABLES],
                rows: [[None; KEYS]; TABLES],
            },
            claims: NO_CLAIMS,
            count: 0,
            asked: [None; EVENTS],
            told: [None; EVENTS],
            is_prepared: false,
            is_found: false,
        }
    }
}

#[derive(Clone, Copy)]
pub struct World {
    pub store: Store,
    pub units: [Unit; OWNERS],
}

#[derive(Clone, Copy)]
pub enum Event {
    Ask(Statement),
    /// A call that finds no memory.
    Excused,
    Prepare,
    Commit,
    Leave,
    /// The conversation is lost: with it goes its unit, unless that is prepared.
    Lost,
}

fn with_answer(unit: Unit, statement: Statement, answer: Answer, claims: Claims) -> Unit {
    let at = unit.count % EVENTS;
    let mut after = unit;
    after.changes = with_change(unit.changes, statement, answer.told);
    after.claims = claims;
    after.count = at + 1;
    after.asked[at] = Some(statement);
    after.told[at] = Some(answer);
    after
}

// What a unit with these claims has behind a statement with those; None where they clash with others,
// or would be too many.
fn kept(machine: Machine, others: Claims, old: Claims, new: Claims) -> Option<Claims> {
    let claims = match machine {
        Machine::ClaimsEndWithTheStatement => new,
        _ => old.with(new),
    };
    let clash = new.clash(others) & !matches!(machine, Machine::NothingClashes);
    if clash | claims.are_many() {
        None
    } else {
        Some(claims)
    }
}

/// The unit behind the answer to a statement, if its claims can be kept.
pub fn asked(
    machine: Machine,
    others: Claims,
    store: Store,
    unit: Unit,
    statement: Statement,
) -> Option<Unit> {
    let view = applied(machine, store, unit.changes);
    let table = view[statement.table % TABLES];
    let new = claims_of(machine, statement, table);
    match kept(machine, others, unit.claims, new) {
        Some(claims) => {
            let answer = answer_to(statement, table, is_full(view));
            Some(with_answer(unit, statement, answer, claims))
        }
        None => None,
    }
}

fn others(world: &World, owner: usize) -> Claims {
    let mut claims = NO_CLAIMS;
    for other in 0..OWNERS {
        if other != owner {
            claims = claims.with(world.units[other].claims);
        }
    }
    claims
}

fn prepared(machine: Machine, unit: Unit) -> Unit {
    let mut after = unit;
    after.is_prepared = true;
    if matches!(machine, Machine::PrepareDropsReadingClaims) {
        after.claims.reads = 0;
    }
    after
}

// What becomes of a unit. One that is prepared is asked nothing.
fn unit_after(machine: Machine, store: Store, others: Claims, unit: Unit, event: Event) -> Unit {
    match event {
        Event::Ask(statement) if !unit.is_prepared => {
            match asked(machine, others, store, unit, statement) {
                Some(after) => after,
                None => unit,
            }
        }
        Event::Lost if !unit.is_prepared => Unit::idle(),
        Event::Ask(_) | Event::Lost | Event::Excused => unit,
        Event::Prepare => prepared(machine, unit),
        Event::Commit | Event::Leave => Unit::idle(),
    }
}

/// An event of this owner, and the unit that it commits, if any.
pub fn happens(machine: Machine, world: &mut World, owner: usize, event: Event) -> Option<Unit> {
    let old = world.units[owner % OWNERS];
    let others = others(&*world, owner);
    world.units[owner % OWNERS] = unit_after(machine, world.store, others, old, event);
    match event {
        Event::Commit => {
            world.store = applied(machine, world.store, old.changes);
            Some(old)
        }
        _ => None,
    }
}
