//! Whether a book and a pass count alike, and whether there are numbers left.

ghost use Rattle.std.specs.Prelude.{◌≡◌, ◌≤◌, ◌<◌, ◌+◌, ◌^◌, ◌↔◌, IfOk, IsTrue, None, Some, false, replicate, slice_get, true};
ghost use Rattle.core_calls.specs.Call.{call_of, lost};
ghost use Rattle.core_history.specs.Passes.{count_of};

use crate::count::Count;
use crate::pass::Pass;
use core_calls::CoreCall;
use std::alloc::{AllocError, Global};

/// How many conversations have leave at a time.
pub const PLACES: usize = 64;

/// Places at which nothing stands.
#[tactic(auto, using(crate::proofs::Counting::replicate_more))]
pub(crate) fn free_places<T: Copy>(alloc: Global) -> Result<Vec<Option<T>>, AllocError>
    ensures { IfOk result (λ places. places.items ≡ replicate 64 None) }
{
    let mut places = Vec::new(alloc);
    for _ in 0..PLACES {
        places.push(None)?;
    }
    Ok(places)
}

/// Whether the book counts as many calls of the pass's conversation as the pass does.
pub(crate) fn knows(places: &[Option<Count>], pass: &Pass) -> bool
    ensures { IsTrue result ↔ (slice_get places.now pass.now.place ≡ Some (Some (count_of pass.now))) }
{
    let Some(Some(count)) = places.get(pass.place) else {
        return false;
    };
    let mine = Count {
        conversation: pass.conversation,
        calls: pass.count,
    };
    *count == mine
}

/// Whether there is no number left for a call. The last one is kept for the loss.
pub(crate) fn is_out_of_numbers(count: u64, call: &CoreCall<'_, '_, '_>) -> bool
    ensures left { result ≡ false → count + 1 < 2 ^ 64 }
    ensures few { result ≡ true → 2 ^ 64 ≤ count + 2 }
    ensures lost { result ≡ true → call_of call.now ≡ lost → count + 1 ≡ 2 ^ 64 }
{
    match call {
        CoreCall::Lost => count == u64::MAX,
        _ => count >= u64::MAX - 1,
    }
}
