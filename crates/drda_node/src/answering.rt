//! Events done by a node, and the records that answer them.

ghost use Rattle.std.specs.Prelude.{◌≡◌, ◌≤◌, ◌+◌, [], ◌++◌, ℕ, List, IfOk, OnErr, OnOk, length, drop};
ghost use Rattle.drda_node.specs.Machine.{IsOpen};
ghost use Rattle.drda_node.specs.Hearing.{Attended, HearsAt};
ghost use Rattle.drda_node.specs.Records.{StartsUnsized, opens, sends, loses, checkpoints, record_text};
ghost use Rattle.drda_node.specs.Reading.{event_of, size_of};
ghost use Rattle.drda_node.specs.Happening.{BreaksOff, Happens, closing, code_of as code_for, refusal};
ghost use Rattle.drda_node.specs.Asking.{IsJournaled};
ghost use Rattle.drda_node.specs.Register.{core_in, machine};
ghost use Rattle.drda_node.specs.Stations.{TellsCheckpoint};

use crate::event::{HEAD_SIZE, Head, push_record};
use crate::node::Node;
use conversation::Heard;
use drda_disk::Disk;
use durable_core::Checkpointed;
use std::alloc::AllocError;

/// Kinds of records that go out.
const OPENED: u8 = 1;

const REPLIES: u8 = 2;

const LOST: u8 = 3;

const CHECKPOINTED: u8 = 4;

const CLOSED: u8 = 5;

const REFUSED: u8 = 6;

/// Why an event is refused.
const CANNOT_OPEN: u8 = 1;

const NOT_OPEN: u8 = 2;

const NO_MEMORY: u8 = 3;

fn refuse(text: &mut Vec<u8>, number: u8, reason: u8) -> Result<(), AllocError>
    ensures { OnOk result (text.new.items ≡ text.old.items ++ refusal number reason) }
{
    push_record(text, REFUSED, number, &[reason])
}

/// Does an event, its bytes to the front of `bytes`, and writes the records that answer it in place of
/// what the text was. For want of memory nothing is said of the text; the event did nothing then, or all
/// that it does, or a prefix of its bytes was heard.
pub(crate) fn answer<D: Disk>(
    node: &mut Node<D>,
    head: Head,
    bytes: &[u8],
    text: &mut Vec<u8>,
) -> Result<(), AllocError>
    requires { size_of head ≤ length bytes.now }
    ensures happens { OnOk result (Happens (machine node.old) (event_of head bytes.now) text.new.items (machine node.new)) }
    ensures checkpoint { OnOk result (TellsCheckpoint D.is_modelled D.life (core_in node.old) (event_of head bytes.now) text.new.items (core_in node.new)) }
    ensures breaks_off { OnErr result (BreaksOff (machine node.old) (event_of head bytes.now) (machine node.new)) }
    ensures journaled { IsJournaled D.is_modelled D.life (core_in node.old) (core_in node.new) }
{
    text.clear();
    match head {
        Head::Opens(number) => answer_open(node, number, text),
        Head::Sends(number, size) => answer_bytes(node, number, &bytes[..size], text),
        Head::Loses(number) => answer_lost(node, number, text),
        Head::Checkpoints(number) => answer_checkpoint(node, number, text),
    }
}

fn answer_open<D: Disk>(
    node: &mut Node<D>,
    number: u8,
    text: &mut Vec<u8>,
) -> Result<(), AllocError>
    requires { text.old.items ≡ [] }
    ensures happens { OnOk result (Happens (machine node.old) (opens number) text.new.items (machine node.new)) }
    ensures breaks_off { OnErr result (BreaksOff (machine node.old) (opens number) (machine node.new)) }
    ensures journaled { IsJournaled D.is_modelled D.life (core_in node.old) (core_in node.new) }
{
    recovery::laws::calls_go_on::<D>();
    node.core.is_durable();
    let place = usize::from(number);
    if !node.is_free(place) {
        return refuse(text, number, CANNOT_OPEN);
    }
    match node.open_at(place) {
        Ok(_) => push_record(text, OPENED, number, &[]),
        Err(_) => refuse(text, number, NO_MEMORY),
    }
}

fn answer_bytes<D: Disk>(
    node: &mut Node<D>,
    number: u8,
    bytes: &[u8],
    text: &mut Vec<u8>,
) -> Result<(), AllocError>
    requires { text.old.items ≡ [] }
    ensures happens { OnOk result (Happens (machine node.old) (sends number bytes.now) text.new.items (machine node.new)) }
    ensures breaks_off { OnErr result (BreaksOff (machine node.old) (sends number bytes.now) (machine node.new)) }
    ensures journaled { IsJournaled D.is_modelled D.life (core_in node.old) (core_in node.new) }
{
    recovery::laws::calls_go_on::<D>();
    node.core.is_durable();
    let place = usize::from(number);
    if !node.has(place) {
        return refuse(text, number, NOT_OPEN);
    }
    text.extend_from_slice(&[REPLIES, number, 0, 0, 0, 0])?;
    let is_closed = hear_all(node, place, bytes, text)?;
    let size = text.len() - HEAD_SIZE;
    if size > u32::MAX as usize {
        return Err(AllocError);
    }
    set_size(text, number, size as u32);
    if is_closed {
        push_record(text, CLOSED, number, &[])?;
    }
    Ok(())
}

// Gives a conversation all of these bytes, and appends its replies. Says whether it is closed then.
fn hear_all<D: Disk>(
    node: &mut Node<D>,
    place: usize,
    bytes: &[u8],
    text: &mut Vec<u8>,
) -> Result<bool, AllocError>
    requires { IsOpen (machine node.old) place }
    ensures hears { IfOk result (λ is_closed. (after : Attended) × (written : List ℕ)
        × (text.new.items ≡ text.old.items ++ written)
        × HearsAt (machine node.old) place bytes.now written after (machine node.new)
        × (after.standing.session.is_closed ≡ is_closed)) }
    ensures anyway { BreaksOff (machine node.old) (sends place bytes.now) (machine node.new) }
    ensures journaled { IsJournaled D.is_modelled D.life (core_in node.old) (core_in node.new) }
{
    match node.feed_all_at(place, bytes, text) {
        Heard::Open => Ok(false),
        Heard::Closed => Ok(true),
        Heard::NoMemory => Err(AllocError),
    }
}

// The head of a record of replies, whose size was left out.
fn set_size(text: &mut Vec<u8>, number: u8, size: u32)
    requires head { StartsUnsized number text.old.items }
    requires size { length text.old.items ≡ 6 + size }
    ensures { text.new.items ≡ record_text 2 number (drop 6 text.old.items) }
{
    let [a, b, c, d] = size.to_be_bytes();
    text[2] = a;
    text[3] = b;
    text[4] = c;
    text[5] = d;
}

fn answer_lost<D: Disk>(
    node: &mut Node<D>,
    number: u8,
    text: &mut Vec<u8>,
) -> Result<(), AllocError>
    requires { text.old.items ≡ [] }
    ensures happens { OnOk result (Happens (machine node.old) (loses number) text.new.items (machine node.new)) }
    ensures breaks_off { OnErr result (BreaksOff (machine node.old) (loses number) (machine node.new)) }
    ensures journaled { IsJournaled D.is_modelled D.life (core_in node.old) (core_in node.new) }
{
    recovery::laws::calls_go_on::<D>();
    node.core.is_durable();
    let place = usize::from(number);
    if !node.has(place) {
        return refuse(text, number, NOT_OPEN);
    }
    node.lose_at(place);
    push_record(text, LOST, number, &[])
}

fn answer_checkpoint<D: Disk>(
    node: &mut Node<D>,
    number: u8,
    text: &mut Vec<u8>,
) -> Result<(), AllocError>
    requires { text.old.items ≡ [] }
    ensures happens { OnOk result (Happens (machine node.old) (checkpoints number) text.new.items (machine node.new)) }
    ensures checkpoint { OnOk result (TellsCheckpoint D.is_modelled D.life (core_in node.old) (checkpoints number) text.new.items (core_in node.new)) }
    ensures breaks_off { OnErr result (BreaksOff (machine node.old) (checkpoints number) (machine node.new)) }
    ensures journaled { IsJournaled D.is_modelled D.life (core_in node.old) (core_in node.new) }
{
    let told = node.checkpoint();
    push_record(text, CHECKPOINTED, number, &[code_of(told)])
}

// What is answered to a checkpoint.
fn code_of(told: Checkpointed) -> u8
    ensures { result ≡ code_for told }
{
    match told {
        Checkpointed::Done => 0,
        Checkpointed::Full { need: _, room: _ } => 1,
        Checkpointed::NoMemory => 2,
        Checkpointed::DeviceFailed | Checkpointed::Closed => 3,
    }
}
