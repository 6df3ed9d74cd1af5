//! A law of the definitions. The function does nothing: its contract is the law.

ghost use Rattle.core_history.specs.Lasting.{KeptBooksLast};

use drda_disk::Disk;

/// What a kept book lists is on its disk: whatever image of it a crash leaves opens to what is durable of the state that the calls
/// lead to, with their answers, from the opening; or, where the device has failed, to that with all that was begun then.
pub fn kept_books_last<D: Disk>()
    ensures { KeptBooksLast D.is_modelled D.life }
{
    recovery::laws::answered_units_stay::<D>();
}
