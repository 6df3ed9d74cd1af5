//! Runs, and what was committed in them once more with the units alone, in the order of commit.

use crate::events::{EVENTS, OWNERS, Unit, asked, happens};
use crate::random::{event, next, opening};
use crate::store::{Machine, NO_CLAIMS, Store, applied};

/// How many lists are tried.
const LISTS: u32 = 20_000;

// Whether a unit has its answers, changes and claims over this store alone.
fn is_alone(machine: Machine, store: Store, unit: &Unit) -> bool {
    let mut alone = Unit::idle();
    for at in 0..EVENTS {
        if let Some(statement) = unit.asked[at] {
            match asked(machine, NO_CLAIMS, store, alone, statement) {
                Some(after) => alone = after,
                None => return false,
            }
        }
    }
    alone.told == unit.told && alone.changes == unit.changes && alone.claims == unit.claims
}

// Whether the next random list is in serial order.
fn is_next_serial(machine: Machine, seed: &mut u32) -> bool {
    let mut world = opening(seed);
    let mut serial = world.store;
    for _ in 0..EVENTS {
        let owner = next(seed) % OWNERS;
        if let Some(unit) = happens(machine, &mut world, owner, event(seed)) {
            if !unit.is_found && !is_alone(machine, serial, &unit) {
                return false;
            }
            serial = applied(machine, serial, unit.changes);
        }
    }
    serial == world.store
}

// The first list that is not.
fn first_not_serial(machine: Machine) -> Option<u32> {
    let mut seed = 1;
    for list in 0..LISTS {
        if !is_next_serial(machine, &mut seed) {
            return Some(list);
        }
    }
    None
}

#[test]
fn committed_units_are_serial(rt: HostRuntime) {
    assert_eq!(rt; first_not_serial(Machine::Right), None);
}

static WRONG: [Machine; 9] = [
    Machine::InsertClaimsNothing,
    Machine::SelectClaimsNothing,
    Machine::SelectOfAllClaimsFoundRows,
    Machine::CreateClaimsNoNames,
    Machine::CreateReplaces,
    Machine::AbsentTableClaimsNothing,
    Machine::NothingClashes,
    Machine::ClaimsEndWithTheStatement,
    Machine::PrepareDropsReadingClaims,
];

#[test]
fn each_mistake_is_found(rt: HostRuntime) {
    for number in 0..9 {
        let list = first_not_serial(WRONG[number]);
        assert!(rt; list.is_some(), "mistake {number}");
    }
}
