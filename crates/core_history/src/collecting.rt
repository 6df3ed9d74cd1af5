//! How a conversation collects what was left for it.

use crate::book::Book;
use crate::count::Count;
use crate::left::Left;
use crate::listing::answer_left;
use crate::pass::Pass;
use core_calls::Answer;
use drda_disk::Disk;
use unit_records::Asked;

impl<D: Disk> Book<D> {
    ghost use Rattle.std.specs.Prelude.{◌≡◌, IfSome, None};
    ghost use Rattle.core_calls.specs.Answer.{answer_of};
    ghost use Rattle.recovery.specs.Journaled.{Journaled, shown_on};
    ghost use Rattle.core_history.specs.Gathered.{Collects, CollectsNothing};

    /// The answer to the pass's next call, where that is what was wished for and was made together with others: the pass
    /// shows the call as the book has listed it, and the answer is left no longer. None where nothing is left for it;
    /// then nothing changes. Takes no memory.
    pub fn collect(&mut self, pass: &mut Pass, wished: &Asked) -> Option<Answer>
        ensures some { IfSome result (λ answer. Collects self.old pass.old wished.now (answer_of answer) self.new pass.new) }
        ensures none { result ≡ None → CollectsNothing self.old pass.old wished.now self.new pass.new }
        ensures journaled { Journaled D.is_modelled (shown_on D.life self.old.core) (shown_on D.life self.new.core) }
    {
        recovery::laws::calls_go_on::<D>();
        self.core.is_durable();
        let has_failed = left_for(&self.places, &self.left, pass, wished)?;
        take_away(&mut self.left, pass.place);
        show(pass, wished, has_failed);
        Some(answer_left(wished, has_failed))
    }
}

ghost use Rattle.std.specs.Prelude.{◌≡◌, ◌<◌, ◌+◌, ◌^◌, ◌++◌, ◌∷◌, [], IfSome, None, Some, length, slice_get, slice_set};
ghost use Rattle.core_history.specs.LeftAnswers.{AreLeft, FailuresAreTrue};
ghost use Rattle.core_history.specs.Wishes.{listed_wish};
ghost use Rattle.core_history.specs.Passes.{calls_in};

// Whether the device failed, where the answer to a pass's next call is left at its place.
fn left_for(
    places: &[Option<Count>],
    left: &[Option<Left>],
    pass: &Pass,
    wished: &Asked,
) -> Option<bool>
    ensures some { IfSome result (λ f. (slice_get places.now pass.now.place ≡ Some (Some (record { conversation = pass.now.conversation; calls = pass.now.count + 1 }))) × (slice_get left.now pass.now.place ≡ Some (Some (record { conversation = pass.now.conversation; number = pass.now.count; wished = wished.now; has_failed = f })))) }
    ensures small { IfSome result (λ _. pass.now.count + 1 < 2 ^ 64) }
    ensures none { result ≡ None → (f : _) → slice_get places.now pass.now.place ≡ Some (Some (record { conversation = pass.now.conversation; calls = pass.now.count + 1 })) → slice_get left.now pass.now.place ≡ Some (Some (record { conversation = pass.now.conversation; number = pass.now.count; wished = wished.now; has_failed = f })) → ⊥ }
{
    let count = (*places.get(pass.place)?)?;
    let answer = (*left.get(pass.place)?)?;
    let is_counted = count.conversation == pass.conversation
        && Some(count.calls) == pass.count.checked_add(1);
    let is_its = answer.conversation == pass.conversation
        && answer.number == pass.count
        && answer.wished.is_same(wished);
    if is_counted && is_its {
        return Some(answer.has_failed);
    }
    None
}

// Nothing is left at a place.
fn take_away(left: &mut Vec<Option<Left>>, place: usize)
    requires { place < length left.old.items }
    ensures left { left.new.items ≡ slice_set left.old.items place None }
    ensures stay { (calls : _) → AreLeft calls left.old.items → AreLeft calls left.new.items }
    ensures failures { (is_failed : _) → FailuresAreTrue is_failed left.old.items → FailuresAreTrue is_failed left.new.items }
{
    left[place] = None;
}

// A pass shows a call that was made together with others, and counts it.
fn show(pass: &mut Pass, wished: &Asked, has_failed: bool)
    requires { pass.old.count + 1 < 2 ^ 64 }
    ensures shown { calls_in pass.new ≡ calls_in pass.old ++ listed_wish pass.old.conversation wished.now has_failed ∷ [] }
    ensures count { pass.new.count ≡ pass.old.count + 1 }
    ensures conversation { pass.new.conversation ≡ pass.old.conversation }
    ensures place { pass.new.place ≡ pass.old.place }
{
    pass.calls.note_wish(pass.conversation, wished, has_failed);
    pass.count += 1;
}
