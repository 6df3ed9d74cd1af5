//! What a book asks its core.

ghost use Rattle.std.specs.Prelude.{◌≡◌, ◌⊎◌, ◌≤◌, IfSome, IsTrue, None, Some, false, if◌then◌else◌, length, true};
ghost use Rattle.core_calls.specs.Answer.{answer_of};
ghost use Rattle.core_calls.specs.Call.{call_of, xa};
ghost use Rattle.durable_core.specs.Ahead.{LetsOpenEarly};
ghost use Rattle.durable_core.specs.declared.together.Together.TheVariants.{Alone, Closed, DeviceFailed, Done};
ghost use Rattle.recovery.specs.Journaled.{IsUnchanged, Journaled, shown_on};
ghost use Rattle.core_history.specs.Gathered.{MakesTogether};
ghost use Rattle.unit_records.specs.Together.{call_for};
ghost use Rattle.serializability.specs.Belonging.{is_excuse};
ghost use Rattle.core_history.specs.Passes.{IsAnswered, Rests};

use crate::chosen::{Chosen, list_calls};
use crate::renewals::Renewals;
use crate::wish::Wish;
use core_calls::{Answer, CoreCall};
use drda_disk::{Disk, Flusher};
use durable_core::{DurableCore, Together};
use unit_records::{Asked, GroupCall, Phase};
use xa_calls::{Request, Verb, Xid};

/// The core takes a step. Where the journal has no room for its record, the core writes a checkpoint first, unless
/// nothing was recorded since the last one; so `Full` is answered only where the store itself has no room.
pub(crate) fn ask<D: Disk>(
    core: &mut DurableCore<D>,
    renewals: &mut Renewals,
    conversation: u64,
    call: &CoreCall<'_, '_, '_>,
) -> Answer
    ensures answered { IsAnswered D.is_modelled D.life core.old conversation (call_of call.now) (answer_of result) core.new }
    ensures journaled { Journaled D.is_modelled (shown_on D.life core.old) (shown_on D.life core.new) }
{
    recovery::laws::calls_go_on::<D>();
    serializability::laws::answers_belong_to_calls();
    match core.step(conversation, call) {
        Answer::Full { need: _, room: _ } => {
            renewals.renew(core);
            core.step(conversation, call)
        }
        answer => answer,
    }
}

/// What was chosen is made together, and the answer is whether the device failed at it. None where nothing was done.
pub(crate) fn ask_together<D: Disk>(core: &mut DurableCore<D>, chosen: &mut Chosen) -> Option<bool>
    ensures members { chosen.new.members.items ≡ chosen.old.members.items }
    ensures some { IfSome result (λ has_failed. MakesTogether D.life core.old chosen.old.members.items has_failed core.new) }
    ensures none { result ≡ None → IsUnchanged (shown_on D.life core.old) (shown_on D.life core.new) }
    ensures journaled { Journaled D.is_modelled (shown_on D.life core.old) (shown_on D.life core.new) }
{
    make_together(core, &chosen.members, &mut chosen.calls)
}

// The calls of these wishes are made together.
fn make_together<D: Disk>(
    core: &mut DurableCore<D>,
    members: &[Wish],
    calls: &mut Vec<GroupCall>,
) -> Option<bool>
    ensures some { IfSome result (λ has_failed. MakesTogether D.life core.old members.now has_failed core.new) }
    ensures none { result ≡ None → IsUnchanged (shown_on D.life core.old) (shown_on D.life core.new) }
    ensures journaled { Journaled D.is_modelled (shown_on D.life core.old) (shown_on D.life core.new) }
{
    recovery::laws::calls_go_on::<D>();
    core.is_durable();
    if !list_calls(members, calls) {
        return None;
    }
    has_failed(core.make_together(calls))
}

/// What was chosen is laid ahead of being made together: what flushes the disk, where it lies there then.
pub(crate) fn lay_ahead<D: Disk>(core: &mut DurableCore<D>, chosen: &mut Chosen) -> Option<Flusher>
    ensures rests { Rests core.old core.new }
    ensures journaled { Journaled D.is_modelled (shown_on D.life core.old) (shown_on D.life core.new) }
{
    recovery::laws::calls_go_on::<D>();
    core.is_durable();
    if !list_calls(&chosen.members, &mut chosen.calls) {
        return None;
    }
    core.lay_ahead(&chosen.calls)
}

/// What was chosen, and was laid ahead, counts on the disk before it is made: what flushes the disk, where it does then.
pub(crate) fn open_early<D: Disk>(core: &mut DurableCore<D>, chosen: &mut Chosen) -> Option<Flusher>
    requires early { IsTrue D.is_modelled → LetsOpenEarly D.allows }
    ensures rests { Rests core.old core.new }
    ensures journaled { Journaled D.is_modelled (shown_on D.life core.old) (shown_on D.life core.new) }
{
    recovery::laws::calls_go_on::<D>();
    core.is_durable();
    if !list_calls(&chosen.members, &mut chosen.calls) {
        return None;
    }
    core.open_early(&chosen.calls)
}

// Whether the device failed at calls that were made together; None where they were not made.
fn has_failed(together: Together) -> Option<bool>
    ensures some { IfSome result (λ f. together ≡ (if f then DeviceFailed else Done)) }
    ensures none { result ≡ None → (together ≡ Alone) ⊎ (together ≡ Closed) }
{
    match together {
        Together::Done => Some(false),
        Together::DeviceFailed => Some(true),
        Together::Alone | Together::Closed => None,
    }
}

/// Whether an answer is one of the call's own. Else it is an excuse: the call was not done.
pub(crate) fn is_done(answer: &Answer) -> bool
    ensures done { result ≡ true → is_excuse (answer_of answer.now) ≡ false }
    ensures excused { result ≡ false → is_excuse (answer_of answer.now) ≡ true }
{
    !matches!(
        answer,
        Answer::NoMemory | Answer::Full { .. } | Answer::DeviceFailed | Answer::Closed
    )
}

/// What a conversation wishes that is about to make this call, where calls of its kind are made together: a commit, but
/// for one behind no statement that may have changed rows, and a phase of two-phase commit.
pub fn wished_by(has_run: bool, call: &CoreCall<'_, '_, '_>) -> Option<Asked>
    ensures { IfSome result (λ wished. call_of call.now ≡ call_for wished) }
{
    match call {
        CoreCall::Commit if has_run => Some(Asked::Commit),
        CoreCall::Xa(Ok(Request::Branch(verb, xid))) => through(*verb, xid),
        _ => None,
    }
}

// The wish for a phase in which this is asked of a branch.
fn through(verb: Verb, xid: &Xid) -> Option<Asked>
    ensures { IfSome result (λ wished. xa (Some (Request.Branch verb xid.now)) ≡ call_for wished) }
{
    let phase = Phase::of(verb)?;
    Some(Asked::Through(phase, *xid))
}

/// Whether a statement was run that may have changed rows, and no commit and no rollback came behind it.
pub fn has_run_behind(has_run: bool, call: &CoreCall<'_, '_, '_>) -> bool {
    match call {
        CoreCall::Run { .. } => true,
        CoreCall::Commit | CoreCall::RollBack => false,
        _ => has_run,
    }
}
