//! Which wishes are fulfilled.

use crate::count::Count;
use crate::numbering::PLACES;
use crate::wish::Wish;
use drda_disk::Disk;
use durable_core::DurableCore;
use std::alloc::{AllocError, Global};
use unit_records::GroupCall;

/// The wishes that are fulfilled together, and what the core is asked for them: lists that are used again, with memory for
/// as many as may have leave.
#[derive(Drop)]
pub struct Chosen {
    pub(crate) members: Vec<Wish>,
    pub(crate) calls: Vec<GroupCall>,
}

impl Chosen {
    ghost use Rattle.std.specs.Prelude.{◌≡◌, ◌≤◌, Some, length, slice_get, true};
    ghost use Rattle.core_history.specs.Gathered.{AreApart, AreMembers, IsMember};

    /// None is chosen yet. Memory may be refused.
    pub(crate) fn new(alloc: Global) -> Result<Chosen, AllocError> {
        Ok(Chosen {
            members: Vec::with_capacity(alloc, PLACES)?,
            calls: Vec::with_capacity(alloc, PLACES)?,
        })
    }

    /// Chooses those of the wishes whose conversations are counted as they say, at each place one, and whose calls the core
    /// would do alone, with a record. False where there is none, or memory is refused.
    pub(crate) fn choose<D: Disk>(
        &mut self,
        core: &DurableCore<D>,
        places: &[Option<Count>],
        wishes: &[Wish],
    ) -> bool
        ensures members { result ≡ true → AreMembers places.now wishes.now self.new.members.items }
        ensures apart { result ≡ true → AreApart self.new.members.items }
        ensures few { result ≡ true → length self.new.members.items ≤ 64 }
    {
        self.members.clear();
        for wish in wishes {
            if !self.consider(core, places, wish) {
                return false;
            }
        }
        !self.members.is_empty()
    }

    // Chooses one wish more, where its conversation is counted as it says, its place is not chosen yet, there are not 64, and
    // the core would do its call alone. No clause says anything of that: one that can't be done would only keep the others
    // from going together. False where memory is refused.
    fn consider<D: Disk>(
        &mut self,
        core: &DurableCore<D>,
        places: &[Option<Count>],
        wish: &Wish,
    ) -> bool
        ensures members { result ≡ true → (wishes : _) (at : _) → slice_get wishes at ≡ Some wish.now → AreMembers places.now wishes self.old.members.items → AreMembers places.now wishes self.new.members.items }
        ensures apart { result ≡ true → AreApart self.old.members.items → AreApart self.new.members.items }
        ensures few { result ≡ true → length self.old.members.items ≤ 64 → length self.new.members.items ≤ 64 }
    {
        if self.members.len() >= PLACES
            || !is_known(places, wish)
            || is_there(&self.members, wish.place)
            || !core.is_ready(&asked_of(wish))
        {
            return true;
        }
        if self.members.push(*wish).is_err() {
            return false;
        }
        true
    }
}

ghost use Rattle.std.specs.Prelude.{◌≡◌, ◌≢◌, ◌<◌, ◌+◌, ◌^◌, Some, false, slice_get, true};
ghost use Rattle.core_history.specs.Gathered.{count_at, group_of};

// Whether as many calls of the conversation are counted as its wish says, and there is a number left for a call.
fn is_known(places: &[Option<Count>], wish: &Wish) -> bool
    ensures known { result ≡ true → slice_get places.now wish.now.place ≡ Some (Some (count_at wish.now)) }
    ensures numbered { result ≡ true → wish.now.count + 2 < 2 ^ 64 }
{
    let Some(Some(count)) = places.get(wish.place) else {
        return false;
    };
    let wished = Count {
        conversation: wish.conversation,
        calls: wish.count,
    };
    *count == wished && wish.count < u64::MAX - 1
}

// Whether one of them is at this place.
fn is_there(members: &[Wish], place: usize) -> bool
    ensures { result ≡ false → (at : _) (member : _) → slice_get members.now at ≡ Some member → member.place ≢ place }
{
    members.iter().any(|member| member.place == place)
}

// What the core is asked for a wish.
fn asked_of(wish: &Wish) -> GroupCall
    ensures { result ≡ record { conversation = wish.now.conversation; asked = wish.now.wished } }
{
    GroupCall {
        conversation: wish.conversation,
        asked: wish.wished,
    }
}

/// Lists what the core is asked for these wishes. False where memory is refused.
pub(crate) fn list_calls(members: &[Wish], calls: &mut Vec<GroupCall>) -> bool
    ensures { result ≡ true → calls.new.items ≡ group_of members.now }
{
    calls.clear();
    for member in members {
        if calls.push(asked_of(member)).is_err() {
            return false;
        }
    }
    true
}
