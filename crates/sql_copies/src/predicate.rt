//! Copies of what rows are tested by.

ghost use Rattle.std.specs.Prelude.{◌≡◌, IfOk};

use crate::value::copy_term;
use sql_text::Predicate;
use sqlite_items::{Boxed, Items};
use std::alloc::{AllocError, Global};

/// The same test.
#[cycle(copy)]
pub(crate) fn copy_predicate<'c>(
    alloc: Global,
    predicate: &Predicate<'_>,
) -> Result<Predicate<'c>, AllocError>
    ensures { IfOk result (λ copy. copy ≡ predicate.now) }
{
    match predicate {
        Predicate::Any(parts) => Ok(Predicate::Any(copy_parts(alloc, parts.as_slice())?)),
        Predicate::All(parts) => Ok(Predicate::All(copy_parts(alloc, parts.as_slice())?)),
        Predicate::Not(part) => {
            let copy = copy_predicate(alloc, part.get())?;
            Ok(Predicate::Not(Boxed::new(alloc, copy)?))
        }
        Predicate::Group(part) => {
            let copy = copy_predicate(alloc, part.get())?;
            Ok(Predicate::Group(Boxed::new(alloc, copy)?))
        }
        Predicate::Compare(a, comparison, b) => {
            let a = copy_term(alloc, a)?;
            let b = copy_term(alloc, b)?;
            Ok(Predicate::Compare(a, *comparison, b))
        }
        Predicate::IsNull(name, negative) => { Ok(Predicate::IsNull(name.copy(alloc)?, *negative)) }
    }
}

#[cycle(copy)]
fn copy_parts<'c>(
    alloc: Global,
    parts: &[Predicate<'_>],
) -> Result<Items<Predicate<'c>>, AllocError>
    ensures { IfOk result (λ copies. copies ≡ parts.now) }
{
    let mut copies = Items::new(alloc);
    for part in parts {
        let copy = copy_predicate(alloc, part)?;
        copies.push(copy)?;
    }
    Ok(copies)
}

/// The same test, where there is one.
pub(crate) fn copy_filter<'c>(
    alloc: Global,
    filter: &Option<Predicate<'_>>,
) -> Result<Option<Predicate<'c>>, AllocError>
    ensures { IfOk result (λ copy. copy ≡ filter.now) }
{
    match filter {
        Some(predicate) => Ok(Some(copy_predicate(alloc, predicate)?)),
        None => Ok(None),
    }
}
