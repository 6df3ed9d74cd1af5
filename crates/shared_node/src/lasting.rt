//! Laws of the definitions. The functions do nothing: their contracts are the laws.

ghost use Rattle.shared_node.specs.Lasting.{AnswersAreDurable, TurnsGoOn};

use crate::origin::Origin;
use drda_disk::Disk;

/// Whatever is done at the lock leaves the same book: it was opened over the same core, and what was listed stays listed, in its
/// place.
pub fn turns_go_on<D: Disk>()
    ensures { TurnsGoOn D.is_modelled D.life }
{}

/// What a desk answers is, in the book that is left then and in each that is found later, its conversation's call with that
/// number and that answer. Of a disk that gives back what was written, each image that a crash leaves of such a book's opens to what
/// is durable of the state that its calls lead to from the opening; or, where the device has failed, to that with all that was
/// begun then.
pub fn answers_are_durable<D: Disk, B: Origin<D>>()
    ensures { AnswersAreDurable D.is_modelled D.life B.is }
{
    core_history::laws::kept_books_last::<D>();
}
