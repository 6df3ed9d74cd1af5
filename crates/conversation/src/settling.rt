//! What a conversation keeps behind a command.

ghost use Rattle.std.specs.Prelude.{◌≡◌};
ghost use Rattle.conversation.specs.Views.{standing_of};

use crate::state::State;
use command_kit::Ask;
use dss_frames::Segments;
use std::alloc::Global;

/// Behind a command: where something was told, or a cursor was being opened, the memory of a long command is given back, and whoever is
/// asked is told what is kept. Cursors that stay open keep rows, of which was told.
#[inline(always)]
pub(crate) fn settle<A: Ask>(
    alloc: Global,
    segments: &mut Segments,
    state: &mut State,
    asker: &mut A,
)
    ensures rest { segments.new.rest ≡ segments.old.rest }
    ensures at_fault { segments.new.at_fault ≡ segments.old.at_fault }
    ensures standing { standing_of state.new asker.new ≡ standing_of state.old asker.old }
{
    if !state.told.is_due {
        return;
    }
    if state.told.is_long() {
        segments.release(alloc);
    }
    tell(state, asker);
}

// Whoever is asked is told what is kept.
#[inline(never)]
fn tell<A: Ask>(state: &mut State, asker: &mut A)
    ensures { standing_of state.new asker.new ≡ standing_of state.old asker.old }
{
    let is_query = state.cursors.is_opening;
    state.cursors.is_opening = false;
    state.cursors.forget_ended(&state.statements);
    let rows = state.cursors.bytes();
    state.told.end(asker, rows, is_query);
}
