//! The fields of a book that are tied to one another, changed together.

ghost use Rattle.std.specs.Prelude.{◌≡◌, ◌+◌, ◌<◌, ◌++◌, ◌∷◌, [], ◌^◌, if◌then◌else◌, None, Some, length, slice_get, slice_set, true};
ghost use Rattle.core_calls.specs.Answer.{answer_of};
ghost use Rattle.core_calls.specs.Call.{call_of};
ghost use Rattle.core_model.specs.Step.{Kept, Taken};
ghost use Rattle.core_history.specs.Books.{AreCounted};
ghost use Rattle.core_history.specs.Gathered.{AreApart, IsKnown, ListsAll, count_at};
ghost use Rattle.core_history.specs.LeftAnswers.{AreLeft, FailuresAreTrue};
ghost use Rattle.core_history.specs.Wishes.{answer_wished, listed_wish};
ghost use Rattle.core_history.specs.Passes.{IsOneMore, calls_in, count_of};

use crate::calls::CallList;
use crate::count::Count;
use crate::left::Left;
use crate::pass::Pass;
use crate::wish::Wish;
use core_calls::{Answer, CoreCall};
use unit_records::Asked;
use xa_calls::XaCode;

/// Lists a call, which is one more of its conversation and of its pass.
pub(crate) fn list(
    calls: &mut CallList,
    places: &mut Vec<Option<Count>>,
    pass: &mut Pass,
    call: &CoreCall<'_, '_, '_>,
    answer: &Answer,
    is_taken: bool,
)
    requires here { slice_get places.old.items pass.old.place ≡ Some (Some (count_of pass.old)) }
    requires small { pass.old.count + 1 < 2 ^ 64 }
    ensures calls { calls.new.listed ≡ calls.old.listed ++ record { conversation = pass.old.conversation; call = call_of call.now; mark = if is_taken then Taken else Kept; answer = answer_of answer.now } ∷ [] }
    ensures shown { calls_in pass.new ≡ calls_in pass.old ++ record { conversation = pass.old.conversation; call = call_of call.now; mark = if is_taken then Taken else Kept; answer = answer_of answer.now } ∷ [] }
    ensures places { places.new.items ≡ slice_set places.old.items pass.old.place (Some (count_of pass.new)) }
    ensures pass { IsOneMore pass.old pass.new }
    ensures counted { (next : _) → AreCounted calls.old.listed places.old.items next → AreCounted calls.new.listed places.new.items next }
    ensures left { (left : _) → AreLeft calls.old.listed left → AreLeft calls.new.listed left }
{
    calls.note(pass.conversation, call, answer, is_taken);
    pass.calls.note(pass.conversation, call, answer, is_taken);
    pass.count += 1;
    places[pass.place] = Some(Count {
        conversation: pass.conversation,
        calls: pass.count,
    });
}

/// Lists calls that were made together, one after another. Each is one more of its conversation, and its answer is left
/// for it.
pub(crate) fn list_all(
    calls: &mut CallList,
    places: &mut Vec<Option<Count>>,
    left: &mut Vec<Option<Left>>,
    members: &[Wish],
    has_failed: bool,
)
    requires known { (at : _) (member : _) → slice_get members.now at ≡ Some member → IsKnown places.old.items member }
    requires apart { AreApart members.now }
    requires as_many { length left.old.items ≡ length places.old.items }
    ensures listed { ListsAll has_failed members.now calls.old.listed calls.new.listed places.old.items places.new.items left.old.items left.new.items }
    ensures counted { (next : _) → AreCounted calls.old.listed places.old.items next → AreCounted calls.new.listed places.new.items next }
    ensures are_left { (next : _) → AreCounted calls.old.listed places.old.items next → AreLeft calls.old.listed left.old.items → AreLeft calls.new.listed left.new.items }
    ensures failures { (is_failed : _) → (has_failed ≡ true → is_failed ≡ true) → FailuresAreTrue is_failed left.old.items → FailuresAreTrue is_failed left.new.items }
    ensures places_stay { length places.new.items ≡ length places.old.items }
    ensures left_stay { length left.new.items ≡ length left.old.items }
{
    for member in members {
        list_one(calls, places, left, member, has_failed);
    }
}

// Lists one of them.
fn list_one(
    calls: &mut CallList,
    places: &mut Vec<Option<Count>>,
    left: &mut Vec<Option<Left>>,
    member: &Wish,
    has_failed: bool,
)
    requires known { slice_get places.old.items member.now.place ≡ Some (Some (count_at member.now)) }
    requires numbered { member.now.count + 1 < 2 ^ 64 }
    requires as_many { length left.old.items ≡ length places.old.items }
    ensures calls { calls.new.listed ≡ calls.old.listed ++ listed_wish member.now.conversation member.now.wished has_failed ∷ [] }
    ensures places { places.new.items ≡ slice_set places.old.items member.now.place (Some (record { conversation = member.now.conversation; calls = member.now.count + 1 })) }
    ensures left { left.new.items ≡ slice_set left.old.items member.now.place (Some (record { conversation = member.now.conversation; number = member.now.count; wished = member.now.wished; has_failed = has_failed })) }
    ensures counted { (next : _) → AreCounted calls.old.listed places.old.items next → AreCounted calls.new.listed places.new.items next }
    ensures are_left { (next : _) → AreCounted calls.old.listed places.old.items next → AreLeft calls.old.listed left.old.items → AreLeft calls.new.listed left.new.items }
    ensures failures { (is_failed : _) → (has_failed ≡ true → is_failed ≡ true) → FailuresAreTrue is_failed left.old.items → FailuresAreTrue is_failed left.new.items }
{
    calls.note_wish(member.conversation, &member.wished, has_failed);
    places[member.place] = Some(Count {
        conversation: member.conversation,
        calls: member.count + 1,
    });
    left[member.place] = Some(Left {
        conversation: member.conversation,
        number: member.count,
        wished: member.wished,
        has_failed,
    });
}

/// What a call is answered that was wished for and made together with others.
pub(crate) fn answer_left(wished: &Asked, has_failed: bool) -> Answer
    ensures { answer_of result ≡ answer_wished wished.now has_failed }
{
    if has_failed {
        return Answer::DeviceFailed;
    }
    match wished {
        Asked::Commit => Answer::Done,
        Asked::Through(_, _) => Answer::Xa(XaCode::Done),
    }
}
