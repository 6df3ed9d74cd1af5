//! Records that are made together, laid as they go onto the disk at once.

ghost use Rattle.std.specs.Prelude.{◌≡◌, ◌+◌, ◌^◌, ◌<◌, IfSome, length, map};
ghost use Rattle.unit_journal.specs.Record.{laid as spelled};
ghost use Rattle.unit_records.specs.RecordContents.{said_by};
ghost use Rattle.journal_recorder.specs.Laying.{AreLaid};

use crate::laying::{held_by, lay, released_by};
use half_store::Layout;
use std::alloc::Global;
use unit_journal::LaidGroup;
use unit_records::RecordContents;

/// Records one behind another, and how many bytes a journal holds back and releases with them.
#[derive(Drop)]
pub(crate) struct LaidTogether {
    pub(crate) group: LaidGroup,
    pub(crate) hold: usize,
    pub(crate) release: usize,
}

/// These records, one behind another, to be made at once. `None` where there are none, where memory is
/// refused, or where one of them alone does not fit into this room; also where they and what they hold
/// back have 2^64 bytes or more.
pub(crate) fn lay_all(
    alloc: Global,
    layout: Layout,
    sayings: &[RecordContents<'_>],
    room: usize,
) -> Option<LaidTogether>
    requires { room < 2 ^ 32 }
    ensures laid { IfSome result (λ all. AreLaid layout (map said_by sayings.now) all.group all.hold all.release) }
    ensures counted { IfSome result (λ all. length (spelled all.group) + all.hold < 2 ^ 64) }
{
    let [first, others @ ..] = sayings else {
        return None;
    };
    let mut group = LaidGroup::of(lay(alloc, layout, *first, room).ok()?);
    let mut hold = held_by(layout, *first);
    let mut release = released_by(layout, *first);
    let mut left = others;
    while let [next, rest @ ..] = left {
        group.push(&lay(alloc, layout, *next, room).ok()?).ok()?;
        hold = hold.checked_add(held_by(layout, *next))?;
        release = release.checked_add(released_by(layout, *next))?;
        left = rest;
    }
    group.len().checked_add(hold)?;
    Some(LaidTogether {
        group,
        hold,
        release,
    })
}
