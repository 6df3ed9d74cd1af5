//! A place for a conversation.

ghost use Rattle.conversation.specs.Feeding.{IsBetweenCommands};

use crate::asker::CoreAsker;
use conversation::{Fed, Front, Heard, Settings};
use drda_disk::Disk;
use std::alloc::{AllocError, Global};

/// A place for a conversation, with the number that was given to the one that stands there.
#[derive(Drop)]
pub struct Slot {
    pub(crate) number: u64,
    pub(crate) is_open: bool,
    pub(crate) front: Front,
    ghost settled: { IsBetweenCommands front },
}

impl Slot {
    ghost use Rattle.std.specs.Prelude.{◌≡◌, IfOk, true};
    ghost use Rattle.conversation.specs.Attended.{attended_by};
    ghost use Rattle.conversation.specs.Feeding.{Takes};
    ghost use Rattle.conversation.specs.Pieces.{HearsPiece};
    ghost use Rattle.drda_node.specs.Asking.{IsJournaled, IsSameAsker, asks, core_of};
    ghost use Rattle.drda_node.specs.Register.{shown};
    ghost use Rattle.drda_node.specs.Machine.{beginning};

    /// A free place.
    pub(crate) fn new(alloc: Global, settings: &Settings) -> Result<Slot, AllocError>
        ensures free { IfOk result (λ p. shown p ≡ None) }
        ensures settings { IfOk result (λ p. p.front.settings ≡ settings.now) }
    {
        dss_frames::laws::stays_read();
        Ok(Slot {
            number: 0,
            is_open: false,
            front: Front::new(alloc, settings)?,
        })
    }

    /// Lets a conversation begin here, under this number.
    pub(crate) fn begin(&mut self, alloc: Global, number: u64)
        ensures shown { shown self.new ≡ Some beginning }
        ensures number { self.new.number ≡ number }
        ensures settings { self.new.front.settings ≡ self.old.front.settings }
    {
        dss_frames::laws::stays_read();
        self.front.restart(alloc);
        self.is_open = true;
        self.number = number;
    }

    /// Takes the conversation away, and gives its memory back.
    pub(crate) fn close(&mut self, alloc: Global)
        ensures shown { shown self.new ≡ None }
        ensures number { self.new.number ≡ self.old.number }
        ensures settings { self.new.front.settings ≡ self.old.front.settings }
    {
        dss_frames::laws::stays_read();
        self.front.restart(alloc);
        self.is_open = false;
    }

    /// Gives the conversation bytes.
    pub(crate) fn feed<D: Disk>(
        &mut self,
        asker: &mut CoreAsker<'_, D>,
        piece: &[u8],
        out: &mut Vec<u8>,
    ) -> Fed
        requires { self.old.is_open ≡ true }
        ensures takes { Takes (asks asker.old.conversation) self.old.front.settings (attended_by self.old.front (core_of D.is_modelled asker.old)) piece.now out.old.items result (attended_by self.new.front (core_of D.is_modelled asker.new)) out.new.items }
        ensures journaled { IsJournaled D.is_modelled D.life asker.old.core.now asker.new.core.now }
        ensures same_asker { IsSameAsker asker.old asker.new }
        ensures open { self.new.is_open ≡ true }
        ensures number { self.new.number ≡ self.old.number }
        ensures settings { self.new.front.settings ≡ self.old.front.settings }
    {
        recovery::laws::calls_go_on::<D>();
        asker.core.is_durable();
        conversation::feed(&mut self.front, asker, piece, out)
    }

    /// Gives the conversation all of these bytes.
    pub(crate) fn feed_all<D: Disk>(
        &mut self,
        asker: &mut CoreAsker<'_, D>,
        piece: &[u8],
        out: &mut Vec<u8>,
    ) -> Heard
        requires { self.old.is_open ≡ true }
        ensures hears { HearsPiece (asks asker.old.conversation) self.old.front.settings (attended_by self.old.front (core_of D.is_modelled asker.old)) piece.now out.old.items result (attended_by self.new.front (core_of D.is_modelled asker.new)) out.new.items }
        ensures journaled { IsJournaled D.is_modelled D.life asker.old.core.now asker.new.core.now }
        ensures same_asker { IsSameAsker asker.old asker.new }
        ensures open { self.new.is_open ≡ true }
        ensures number { self.new.number ≡ self.old.number }
        ensures settings { self.new.front.settings ≡ self.old.front.settings }
    {
        recovery::laws::calls_go_on::<D>();
        asker.core.is_durable();
        conversation::feed_all(&mut self.front, asker, piece, out)
    }
}
