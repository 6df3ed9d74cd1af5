//! What the records of journals lead to.

ghost use Rattle.std.specs.Prelude.{IfSome};
ghost use Rattle.paged_tables.specs.TablesByName.{LieInside};
ghost use Rattle.recovery.specs.Replay.{pages_of};

use drda_disk::MemDisk;
use half_store::Layout::{self, One, Two};
use paged_tables::PagedTables;
use recovery::{PreparedUnit, Replay, ReplayError, replay};
use row_pages::{PageCache, Pager};
use std::alloc::{AllocError, Global};
use unit_journal::{Kind, Record};
use xa_manager::Decision;

// T is created and a row put; nothing; a row is put under a branch with a claim of the table; another
// branch puts none; the branches are decided.
pub const CREATED: (Kind, &'static [u8]) = (
    Kind::Commit,
    &[
        0, 0, 0, 2, 1, 1, b'T', 1, 1, b'A', 2, 0, 0, 0, 1, 0, 2, 1, b'T', 0, 5, 0, 0, 0, 0, 5,
    ],
);

pub const NOTHING: (Kind, &'static [u8]) = (Kind::Commit, &[0, 0, 0, 0]);

pub const PREPARED: (Kind, &'static [u8]) = (
    Kind::Prepare,
    &[
        0, 0, 0, 7, 0, 0, 0, 1, 0, 0, 0, 0, b'g', 0, 0, 0, 1, 1, 1, b'T', 0, 0, 0, 0, 1, 2, 1,
        b'T', 0, 5, 0, 0, 0, 0, 6,
    ],
);

pub const ANOTHER: (Kind, &'static [u8]) = (
    Kind::Prepare,
    &[
        0, 0, 0, 7, 0, 0, 0, 1, 0, 0, 0, 0, b'f', 0, 0, 0, 0, 0, 0, 0, 0,
    ],
);

// Another branch creates U without the claim of all names; with it, twice.
pub const UNCLAIMED: (Kind, &'static [u8]) = (
    Kind::Prepare,
    &[
        0, 0, 0, 7, 0, 0, 0, 1, 0, 0, 0, 0, b'f', 0, 0, 0, 1, 1, 1, b'U', 0, 0, 0, 0, 1, 1, 1,
        b'U', 1, 1, b'A', 2, 0, 0, 0, 1, 0,
    ],
);

pub const CLAIMED: (Kind, &'static [u8]) = (
    Kind::Prepare,
    &[
        0, 0, 0, 7, 0, 0, 0, 1, 0, 0, 0, 0, b'f', 0, 0, 0, 2, 1, 1, b'*', 0, 1, 1, b'*', 0, 0, 0,
        0, 1, 1, 1, b'U', 1, 1, b'A', 2, 0, 0, 0, 1, 0,
    ],
);

const DONE: (Kind, &'static [u8]) = (Kind::Decide, &[0, 0, 0, 7, 0, 0, 0, 1, 0, 0, 0, 0, b'g', 1]);

const UNDONE: (Kind, &'static [u8]) = (
    Kind::Decide,
    &[0, 0, 0, 7, 0, 0, 0, 1, 0, 0, 0, 0, b'g', 2],
);

// The first branch is decided heuristically, in both ways and in none, and is forgotten.
pub const COMPLETED: (Kind, &'static [u8]) = (
    Kind::Heuristic,
    &[0, 0, 0, 7, 0, 0, 0, 1, 0, 0, 0, 0, b'g', 1],
);

const DROPPED: (Kind, &'static [u8]) = (
    Kind::Heuristic,
    &[0, 0, 0, 7, 0, 0, 0, 1, 0, 0, 0, 0, b'g', 2],
);

const NEITHER: (Kind, &'static [u8]) = (
    Kind::Heuristic,
    &[0, 0, 0, 7, 0, 0, 0, 1, 0, 0, 0, 0, b'g', 3],
);

const FORGOTTEN: (Kind, &'static [u8]) = (
    Kind::Forget,
    &[0, 0, 0, 7, 0, 0, 0, 1, 0, 0, 0, 0, b'g'],
);

const REMOVED: (Kind, &'static [u8]) = (
    Kind::Commit,
    &[0, 0, 0, 1, 3, 1, b'T', 0, 5, 0, 0, 0, 0, 5],
);

const SHORT_ROW: (Kind, &'static [u8]) = (Kind::Commit, &[0, 0, 0, 1, 2, 1, b'T', 0, 2, 0, 0]);

// How many rows T has, a sign for each branch in doubt, in their order, and how many claims the first of them has: ? waits for its
// decision, C and R were decided heuristically to commit and to roll back. Or the gate of the record that is damaged, of which that of
// record i is at i times 100.
type Told = Result<(usize, &'static str, usize), usize>;

pub type Records = &'static [(Kind, &'static [u8])];

// The layout, records whose tables are a checkpoint, those that follow it, and what these lead to.
const JOURNALS: [(Layout, Records, Records, Told); 41] = [
    (Two, &[], &[], Ok((0, "", 0))),
    (Two, &[], &[CREATED, NOTHING], Ok((1, "", 0))),
    (Two, &[], &[CREATED, PREPARED], Ok((1, "?", 1))),
    (Two, &[], &[CREATED, PREPARED, ANOTHER], Ok((1, "??", 0))),
    (
        Two,
        &[],
        &[CREATED, ANOTHER, PREPARED, DONE],
        Ok((2, "?", 0)),
    ),
    (Two, &[], &[CREATED, PREPARED, UNDONE], Ok((1, "", 0))),
    (Two, &[], &[CREATED, REMOVED, REMOVED], Ok((0, "", 0))),
    (Two, &[], &[CREATED, CLAIMED], Ok((1, "?", 2))),
    (Two, &[], &[CREATED, UNCLAIMED], Err(100)),
    (Two, &[], &[CREATED, CREATED], Err(100)),
    (Two, &[], &[PREPARED], Err(0)),
    (Two, &[], &[CREATED, PREPARED, PREPARED], Err(200)),
    (Two, &[], &[CREATED, PREPARED, DONE, UNDONE], Err(300)),
    (Two, &[], &[CREATED, SHORT_ROW], Err(100)),
    (Two, &[], &[CREATED, (Kind::Commit, &[0, 0, 0])], Err(100)),
    (Two, &[CREATED], &[], Ok((1, "", 0))),
    (Two, &[CREATED], &[NOTHING, PREPARED, DONE], Ok((2, "", 0))),
    (Two, &[CREATED, REMOVED], &[PREPARED], Ok((0, "?", 1))),
    (Two, &[CREATED], &[NOTHING, CREATED], Err(100)),
    (Two, &[], &[CREATED, PREPARED, COMPLETED], Ok((2, "C", 0))),
    (Two, &[], &[CREATED, PREPARED, DROPPED], Ok((1, "R", 0))),
    (
        Two,
        &[],
        &[CREATED, PREPARED, COMPLETED, ANOTHER],
        Ok((2, "?C", 0)),
    ),
    (
        Two,
        &[CREATED],
        &[ANOTHER, PREPARED, DROPPED],
        Ok((1, "?R", 0)),
    ),
    (
        Two,
        &[],
        &[CREATED, PREPARED, COMPLETED, FORGOTTEN],
        Ok((2, "", 0)),
    ),
    (
        Two,
        &[],
        &[CREATED, PREPARED, DROPPED, FORGOTTEN],
        Ok((1, "", 0)),
    ),
    (
        Two,
        &[CREATED],
        &[PREPARED, DROPPED, FORGOTTEN, PREPARED],
        Ok((1, "?", 1)),
    ),
    (Two, &[], &[COMPLETED], Ok((0, "C", 0))),
    (
        Two,
        &[CREATED],
        &[DROPPED, FORGOTTEN, COMPLETED],
        Ok((1, "C", 0)),
    ),
    (Two, &[CREATED], &[PREPARED, COMPLETED, DONE], Err(200)),
    (Two, &[CREATED], &[PREPARED, COMPLETED, DROPPED], Err(200)),
    (Two, &[CREATED], &[PREPARED, COMPLETED, PREPARED], Err(200)),
    (Two, &[CREATED], &[PREPARED, FORGOTTEN], Err(100)),
    (Two, &[CREATED], &[PREPARED, DONE, FORGOTTEN], Err(200)),
    (
        Two,
        &[CREATED],
        &[COMPLETED, FORGOTTEN, FORGOTTEN],
        Err(200),
    ),
    (Two, &[], &[NEITHER], Err(0)),
    (
        One,
        &[],
        &[CREATED, ANOTHER, PREPARED, DONE],
        Ok((2, "?", 0)),
    ),
    (
        One,
        &[CREATED],
        &[PREPARED, UNDONE, CLAIMED],
        Ok((1, "?", 2)),
    ),
    (One, &[CREATED], &[PREPARED, COMPLETED], Err(100)),
    (One, &[CREATED], &[PREPARED, DROPPED], Err(100)),
    (One, &[], &[COMPLETED], Err(0)),
    (One, &[CREATED], &[NOTHING, FORGOTTEN], Err(100)),
];

pub fn records(alloc: Global, said: &[(Kind, &'static [u8])]) -> Option<Vec<Record>> {
    let mut list = Vec::new(alloc);
    let mut at: usize = 0;
    for (kind, body) in said {
        let body = Vec::from_slice(alloc, body).ok()?;
        list.push(Record {
            at,
            kind: *kind,
            body,
        })
        .ok()?;
        at = at.saturating_add(100);
    }
    Some(list)
}

// The sign of each branch in doubt.
fn signs(alloc: Global, units: &[PreparedUnit]) -> Result<String, AllocError> {
    let mut signs = String::new(alloc);
    for unit in units {
        signs.push_str(match unit.outcome {
            None => "?",
            Some(Decision::Commit) => "C",
            Some(Decision::RollBack) => "R",
        })?;
    }
    Ok(signs)
}

// How many rows the table T has. No table has pages, so nothing is read of the disk, which has no byte.
fn row_count(alloc: Global, store: &PagedTables) -> Option<usize>
    requires { LieInside 0 store.now.tables }
{
    let disk = MemDisk::new(alloc, 0).ok()?;
    let cache = PageCache::new(alloc, 1).ok()?;
    let mut pager = Pager::over(disk, cache);
    let rows = store.rows(alloc, &mut pager, "T").ok()?;
    Some(rows.len())
}

fn shown(alloc: Global, state: Replay) -> Option<(usize, String, usize)>
    requires { LieInside 0 (pages_of state) }
{
    let (store, units) = state.into_parts();
    let rows = row_count(alloc, &store)?;
    let claims = match units.first() {
        Some(unit) => unit.claims.len(),
        None => 0,
    };
    Some((rows, signs(alloc, units.as_slice()).ok()?, claims))
}

// The tables that records lead to.
pub fn checkpoint(alloc: Global, said: &[(Kind, &'static [u8])]) -> Option<PagedTables>
    ensures { IfSome result (λ store. LieInside 0 store.tables) }
{
    let list = records(alloc, said)?;
    match replay(alloc, Two, PagedTables::new(alloc), list.as_slice()) {
        Ok(state) => Some(state.into_parts().0),
        Err(_) => None,
    }
}

// None without memory.
fn told(
    alloc: Global,
    layout: Layout,
    before: &[(Kind, &'static [u8])],
    said: &[(Kind, &'static [u8])],
) -> Option<Result<(usize, String, usize), usize>> {
    let list = records(alloc, said)?;
    match replay(alloc, layout, checkpoint(alloc, before)?, list.as_slice()) {
        Ok(state) => Some(Ok(shown(alloc, state)?)),
        Err(ReplayError::Damaged { at }) => Some(Err(at)),
        Err(ReplayError::NoMemory) => None,
    }
}

fn leads_to(
    alloc: Global,
    layout: Layout,
    before: &[(Kind, &'static [u8])],
    said: &[(Kind, &'static [u8])],
    want: &Told,
) -> bool {
    match (told(alloc, layout, before, said), want) {
        (Some(Ok((rows, signs, claims))), Ok(wanted)) => (rows, signs.as_str(), claims) == *wanted,
        (Some(Err(at)), Err(wanted)) => at == *wanted,
        _ => false,
    }
}

#[test]
fn journals_lead_to_states(rt: HostRuntime) {
    let mut number: usize = 0;
    for (layout, before, said, want) in &JOURNALS {
        assert!(rt;
            leads_to(rt.alloc(), *layout, before, said, want),
            "{number}"
        );
        number = number.saturating_add(1);
    }
}
