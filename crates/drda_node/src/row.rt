//! The row of places.

ghost use Rattle.std.specs.Prelude.{◌≡◌, IfOk, length, map, None, replicate};
ghost use Rattle.drda_node.specs.Register.{shown};
ghost use Rattle.drda_node.specs.Sharing.{AllServe};

use crate::slot::Slot;
use conversation::Settings;
use std::alloc::{AllocError, Global};

/// How many conversations can be open at a time.
pub(crate) const PLACES: usize = 64;

/// A row of free places.
pub(crate) fn free_places(alloc: Global, settings: &Settings) -> Result<Vec<Slot>, AllocError>
    ensures count { IfOk result (λ places. length places.items ≡ 64) }
    ensures alike { IfOk result (λ places. AllServe settings.now places.items) }
    ensures free { IfOk result (λ places. map shown places.items ≡ replicate 64 None) }
{
    let mut places = Vec::new(alloc);
    for _ in 0..PLACES {
        places.push(Slot::new(alloc, settings)?)?;
    }
    Ok(places)
}
