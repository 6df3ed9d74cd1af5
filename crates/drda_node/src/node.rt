//! The node: a row of places.

ghost use Rattle.std.specs.Prelude.{◌≡◌, length};
ghost use Rattle.drda_node.specs.Sharing.{AllServe};

use crate::asker::CoreAsker;
use crate::row::{PLACES, free_places};
use crate::slot::Slot;
use call_list::{CallList, is_done};
use conversation::{Fed, Heard, Settings};
use core_calls::CoreCall;
use drda_disk::Disk;
use durable_core::{Checkpointed, DurableCore};
use std::alloc::Global;
use thiserror::Error;

/// Which conversation of a node. None is given twice.
#[derive(Clone, Copy, Debug, PartialEq, Eq)]
pub struct ConversationId {
    place: usize,
    number: u64,
}

/// Why no conversation was opened.
#[derive(Clone, Copy, Debug, PartialEq, Eq, Error)]
pub enum OpenError {
    /// 64 conversations are open.
    #[error("64 conversations are open")]
    TooMany,
    /// There is no number left that was not given before: they have all been given, up to the last
    /// of 64 bits.
    #[error("no memory")]
    NoMemory,
}

/// Up to 64 conversations, the core that they ask, and the calls that it was asked.
#[derive(Drop)]
pub struct Node<D: Disk> {
    alloc: Global,
    settings: Settings,
    pub(crate) core: DurableCore<D>,
    calls: CallList,
    pub(crate) places: Vec<Slot>,
    pub(crate) next_number: u64,
    ghost sixty_four: { length places.items ≡ 64 },
    ghost alike: { AllServe settings places.items },
}

impl<D: Disk> Node<D> {
    ghost use Rattle.std.specs.Prelude.{◌≡◌, ◌<◌, ◌+◌, ◌↔◌, IfOk, IfErr, OnErr, IsTrue, ◌≢◌, ◌^◌, Err, true, false, length, slice_get, Some, None};
    ghost use Rattle.drda_node.specs.Asking.{IsJournaled, asked_of};
    ghost use Rattle.drda_node.specs.Machine.{at_start, is_full, lost, IsOpen, opened};
    ghost use Rattle.drda_node.specs.Feeding.{Feeds};
    ghost use Rattle.recovery.specs.Journaled.{shown_on};
    ghost use Rattle.durable_core.specs.Checkpointing.{Checkpoints};
    ghost use Rattle.drda_node.specs.Happening.{IsCheckpointed};
    ghost use Rattle.drda_node.specs.Hearing.{HearsPiece};
    ghost use Rattle.drda_node.specs.Register.{core_in, machine, numbers, place_of, Names, Opens};

    /// A node with no conversation, over this core. Out of memory, the core is handed back.
    pub fn start(
        alloc: Global,
        settings: Settings,
        core: DurableCore<D>,
    ) -> Result<Node<D>, DurableCore<D>>
        ensures machine { IfOk result (λ n. machine n ≡ at_start settings (asked_of D.is_modelled core)) }
        ensures core { IfOk result (λ n. core_in n ≡ core) }
        ensures back { IfErr result (λ back. back ≡ core) }
    {
        match free_places(alloc, &settings) {
            Ok(places) => {
                Ok(Node {
                    alloc,
                    settings,
                    core,
                    calls: CallList::none(),
                    places,
                    next_number: 0,
                })
            }
            Err(_) => Err(core),
        }
    }

    /// The core.
    pub fn core(&self) -> &DurableCore<D>
        ensures { result.now ≡ core_in self.now }
    {
        &self.core
    }

    /// The core, as the last call left it. What the conversations had left unfinished is in it still.
    pub fn into_core(self) -> DurableCore<D>
        ensures { result ≡ core_in self }
    {
        let Node {
            alloc: _,
            settings: _,
            core,
            calls: _,
            places: _,
            next_number: _,
        } = self;
        core
    }

    /// Opens a conversation. TooMany exactly where 64 are open, else NoMemory exactly where no number
    /// is left; where it refuses, nothing changes.
    pub fn open_conversation(&mut self) -> Result<ConversationId, OpenError>
        ensures opened { IfOk result (λ id. Opens (machine self.old) (numbers self.old) id (machine self.new) (numbers self.new)) }
        ensures refused { OnErr result (machine self.new ≡ machine self.old) }
        ensures none_given { OnErr result (numbers self.new ≡ numbers self.old) }
        ensures too_many { (result ≡ Err OpenError.TooMany) ↔ (is_full (machine self.old) ≡ true) }
        ensures no_memory { (result ≡ Err OpenError.NoMemory) ↔ ((is_full (machine self.old) ≡ false) × ((machine self.old).given + 1 ≡ 2 ^ 64)) }
        ensures places { length (machine self.old).row ≡ 64 }
        ensures journaled { IsJournaled D.is_modelled D.life (core_in self.old) (core_in self.new) }
    {
        recovery::laws::calls_go_on::<D>();
        self.core.is_durable();
        for place in 0..PLACES {
            if self.is_free(place) {
                return self.open_at(place);
            }
        }
        Err(OpenError::TooMany)
    }

    /// Opens a conversation at a free place; NoMemory where no number is left.
    pub(crate) fn open_at(&mut self, place: usize) -> Result<ConversationId, OpenError>
        requires { slice_get (machine self.old).row place ≡ Some None }
        ensures opened { IfOk result (λ id. Opens (machine self.old) (numbers self.old) id (machine self.new) (numbers self.new)) }
        ensures place { IfOk result (λ id. place_of id ≡ place) }
        ensures refused { OnErr result (machine self.new ≡ machine self.old) }
        ensures none_given { OnErr result (numbers self.new ≡ numbers self.old) }
        ensures not_full { result ≢ Err OpenError.TooMany }
        ensures no_memory { (result ≡ Err OpenError.NoMemory) ↔ ((machine self.old).given + 1 ≡ 2 ^ 64) }
        ensures journaled { IsJournaled D.is_modelled D.life (core_in self.old) (core_in self.new) }
    {
        recovery::laws::calls_go_on::<D>();
        self.core.is_durable();
        let number = self.next_number;
        let Some(next_number) = number.checked_add(1) else {
            return Err(OpenError::NoMemory);
        };
        self.places[place].begin(self.alloc, number);
        self.next_number = next_number;
        Ok(ConversationId { place, number })
    }

    /// Whether the conversation is open: from when its name was given until it is lost, closed by a
    /// fault or not.
    pub fn is_open(&self, id: ConversationId) -> bool
        ensures { IsTrue result ↔ Names (machine self.now) (numbers self.now) id }
    {
        self.has(id.place) && self.places[id.place].number == id.number
    }

    /// Whether a conversation is open at this place.
    pub(crate) fn has(&self, place: usize) -> bool
        ensures { IsTrue result ↔ IsOpen (machine self.now) place }
    {
        place < self.places.len() && self.places[place].is_open
    }

    /// Whether this is a free place.
    pub(crate) fn is_free(&self, place: usize) -> bool
        ensures { IsTrue result ↔ (slice_get (machine self.now).row place ≡ Some None) }
    {
        place < self.places.len() && !self.places[place].is_open
    }

    /// Gives a conversation bytes, and appends its replies to `out`. A crash at any moment of it, inside of
    /// a device call too, leaves a disk that opens to the tables and the units in doubt after the first of
    /// the records that its commands made.
    pub fn feed(&mut self, id: ConversationId, piece: &[u8], out: &mut Vec<u8>) -> Fed
        requires { Names (machine self.old) (numbers self.old) id }
        ensures feeds { Feeds (machine self.old) (place_of id) piece.now out.old.items result (machine self.new) out.new.items }
        ensures numbers { numbers self.new ≡ numbers self.old }
        ensures journaled { IsJournaled D.is_modelled D.life (core_in self.old) (core_in self.new) }
    {
        self.feed_at(id.place, piece, out)
    }

    /// Gives the conversation at this place bytes.
    pub(crate) fn feed_at(&mut self, place: usize, piece: &[u8], out: &mut Vec<u8>) -> Fed
        requires { IsOpen (machine self.old) place }
        ensures feeds { Feeds (machine self.old) place piece.now out.old.items result (machine self.new) out.new.items }
        ensures numbers { numbers self.new ≡ numbers self.old }
        ensures journaled { IsJournaled D.is_modelled D.life (core_in self.old) (core_in self.new) }
    {
        let mut asker = CoreAsker {
            core: &mut self.core,
            calls: &mut self.calls,
            conversation: place as u64,
        };
        self.places[place].feed(&mut asker, piece, out)
    }

    /// Gives a conversation all of these bytes, and appends its replies to `out`, those that say that a command
    /// found no memory among them. Where memory is refused, a prefix of the bytes was heard, and all of its
    /// replies were appended, but perhaps not the last, which says that a command found no memory.
    pub fn feed_all(&mut self, id: ConversationId, piece: &[u8], out: &mut Vec<u8>) -> Heard
        requires { Names (machine self.old) (numbers self.old) id }
        ensures hears { HearsPiece (machine self.old) (place_of id) piece.now out.old.items result (machine self.new) out.new.items }
        ensures numbers { numbers self.new ≡ numbers self.old }
        ensures named { Names (machine self.new) (numbers self.new) id }
        ensures journaled { IsJournaled D.is_modelled D.life (core_in self.old) (core_in self.new) }
    {
        self.feed_all_at(id.place, piece, out)
    }

    /// Gives the conversation at this place all of these bytes.
    pub(crate) fn feed_all_at(&mut self, place: usize, piece: &[u8], out: &mut Vec<u8>) -> Heard
        requires { IsOpen (machine self.old) place }
        ensures hears { HearsPiece (machine self.old) place piece.now out.old.items result (machine self.new) out.new.items }
        ensures there { IsOpen (machine self.new) place }
        ensures numbers { numbers self.new ≡ numbers self.old }
        ensures journaled { IsJournaled D.is_modelled D.life (core_in self.old) (core_in self.new) }
    {
        let conversation = place as u64;
        let mut asker = CoreAsker {
            core: &mut self.core,
            calls: &mut self.calls,
            conversation,
        };
        self.places[place].feed_all(&mut asker, piece, out)
    }

    /// Takes a conversation away: its place is free, what it had not sent whole is dropped, and its
    /// memory is given back. Its unit of work ends without its changes, and so does each branch that it
    /// was the last to start or join, and that is not prepared; once the device has failed the core does
    /// nothing more, and only the place is free. Takes no memory.
    pub fn lost(&mut self, id: ConversationId)
        requires { Names (machine self.old) (numbers self.old) id }
        ensures machine { machine self.new ≡ lost (machine self.old) (place_of id) }
        ensures numbers { numbers self.new ≡ numbers self.old }
        ensures journaled { IsJournaled D.is_modelled D.life (core_in self.old) (core_in self.new) }
    {
        self.lose_at(id.place);
    }

    /// Takes the conversation at this place away.
    pub(crate) fn lose_at(&mut self, place: usize)
        requires { IsOpen (machine self.old) place }
        ensures machine { machine self.new ≡ lost (machine self.old) place }
        ensures numbers { numbers self.new ≡ numbers self.old }
        ensures journaled { IsJournaled D.is_modelled D.life (core_in self.old) (core_in self.new) }
    {
        self.places[place].close(self.alloc);
        end_units(&mut self.core, &mut self.calls, place as u64);
    }

    /// Checkpoints the store. The conversations and what their core has done stay: once the checkpoint is
    /// written the core has the room that it leaves; at `Full`, `NoMemory` and `Closed` nothing changes; at
    /// `DeviceFailed` the device has failed in it. A crash at any moment leaves a disk that opens to the
    /// same tables and units in doubt.
    pub fn checkpoint(&mut self) -> Checkpointed
        ensures told { Checkpoints D.is_modelled result (shown_on D.life (core_in self.old)) (shown_on D.life (core_in self.new)) }
        ensures checkpointed { IsCheckpointed result (machine self.old).core (machine self.new).core }
        ensures rest { machine self.new ≡ record (machine self.old) { core = (machine self.new).core } }
        ensures numbers { numbers self.new ≡ numbers self.old }
        ensures journaled { IsJournaled D.is_modelled D.life (core_in self.old) (core_in self.new) }
    {
        checkpoint_core(&mut self.core)
    }
}

ghost use Rattle.std.specs.Prelude.{List};
ghost use Rattle.serializability.specs.Answered.{AnsweredCall};
ghost use Rattle.drda_node.specs.Asking.{IsJournaled, asked_after, left_by};
ghost use Rattle.drda_node.specs.Happening.{IsCheckpointed};
ghost use Rattle.recovery.specs.Journaled.{shown_on};
ghost use Rattle.durable_core.specs.Checkpointing.{Checkpoints};

// Ends what was a conversation's alone, and notes the loss.
fn end_units<D: Disk>(core: &mut DurableCore<D>, calls: &mut CallList, conversation: u64)
    ensures left { asked_after D.is_modelled calls.new.listed core.new ≡ left_by (asked_after D.is_modelled calls.old.listed core.old) conversation }
    ensures journaled { IsJournaled D.is_modelled D.life core.old core.new }
{
    serializability::laws::answers_belong_to_calls();
    let answer = core.lost(conversation);
    calls.note(conversation, &CoreCall::Lost, &answer, is_done(&answer));
}

// Writes a checkpoint of the core.
#[tactic(auto, using(crate::proofs::Cores::core_checkpoints))]
fn checkpoint_core<D: Disk>(core: &mut DurableCore<D>) -> Checkpointed
    ensures told { Checkpoints D.is_modelled result (shown_on D.life core.old) (shown_on D.life core.new) }
    ensures checkpointed { (calls : List AnsweredCall) → IsCheckpointed result (asked_after D.is_modelled calls core.old) (asked_after D.is_modelled calls core.new) }
    ensures journaled { IsJournaled D.is_modelled D.life core.old core.new }
{
    core.checkpoint()
}
