//! Units of work over tables in memory, beside the same changes applied to those.

use crate::steps::{Step, add, lists_same, plain, shows_same};
use std::alloc::Global;
use std::test::Fail;
use unit_changes::{MAX_CHANGED_BYTES, UnitChanges};

/// What was committed: `A` with rows 1 and 2, and `B` with row 1.
const BASE: [Step; 5] = [
    Step::Create("A"),
    Step::Create("B"),
    Step::Put("A", 1, 10),
    Step::Put("A", 2, 20),
    Step::Put("B", 1, 11),
];

/// Put, replaced, removed; removed what was put, put what was removed; created, put into it, and
/// removed from it; a table that is there already, and one that nobody has.
const STEPS: [Step; 13] = [
    Step::Put("A", 3, 30),
    Step::Put("A", 1, 12),
    Step::Remove("A", 2),
    Step::Remove("A", 3),
    Step::Put("A", 2, 21),
    Step::Put("A", 2, 22),
    Step::Put("A", -5, 15),
    Step::Create("C"),
    Step::Put("C", 1, 13),
    Step::Put("C", -5, 14),
    Step::Remove("C", 1),
    Step::Create("B"),
    Step::Remove("B", 1),
];

const NAMES: [&str; 4] = ["A", "B", "C", "D"];

fn all_same(alloc: Global, unit: &UnitChanges, steps: &[Step]) -> Result<bool, Fail> {
    let mut base = plain(alloc, &BASE)?;
    let mut other = plain(alloc, &BASE)?;
    for step in steps {
        other.apply(alloc, crate::steps::change(alloc, *step)?)?;
    }
    for name in NAMES {
        if !lists_same(alloc, &mut base, unit, &mut other, name)? {
            return Ok(false);
        }
        for k in [-5, 1, 2, 3] {
            if !shows_same(alloc, &mut base, unit, &mut other, name, k)? {
                return Ok(false);
            }
        }
    }
    Ok(true)
}

#[test]
fn shows_what_its_changes_make(rt: HostRuntime) -> Result<(), Fail> {
    let alloc = rt.alloc();
    let mut unit = UnitChanges::new(alloc);
    assert!(rt; unit.is_empty());
    for (i, step) in STEPS.iter().enumerate() {
        add(alloc, &mut unit, *step)?;
        assert_eq!(rt; unit.as_slice().len(), i + 1);
        assert!(rt; all_same(alloc, &unit, &STEPS[..=i])?, "step {i}");
    }
    assert!(rt; !unit.is_empty());
    Ok(())
}

#[test]
fn counts_the_bytes_that_are_left(rt: HostRuntime) -> Result<(), Fail> {
    let alloc = rt.alloc();
    let mut unit = UnitChanges::new(alloc);
    assert_eq!(rt; unit.left(), MAX_CHANGED_BYTES);
    add(alloc, &mut unit, Step::Put("A", 3, 30))?;
    // a code, the name behind its length, and ten bytes of row behind theirs
    assert_eq!(rt; unit.left(), MAX_CHANGED_BYTES - 15);
    Ok(())
}
