//! Calls that are made together.

use crate::asking::ask_together;
use crate::book::Book;
use crate::listing::list_all;
use crate::wish::Wish;
use drda_disk::Disk;

impl<D: Disk> Book<D> {
    ghost use Rattle.std.specs.Prelude.{◌⊎◌};
    ghost use Rattle.recovery.specs.Journaled.{Journaled, shown_on};
    ghost use Rattle.core_history.specs.Gathered.{Gathers, GathersNone};

    /// Those of the wishes whose conversations the book counts as the wishes do, and whose calls would be done alone, with a
    /// record, are fulfilled together, with a record each, all of them in one group; and they are listed one after
    /// another. Each conversation has made one call more then, and its answer is left at its place, to be collected.
    /// Where the device fails at it, that is the answer of each.
    ///
    /// Nothing is done where there is none of them, where they do not go together, where there is no memory or no room for
    /// all, or where the device had failed before: then each makes its call alone. One alone is a group too.
    pub fn make_together(&mut self, wishes: &[Wish])
        ensures gathers { GathersNone D.life self.old self.new ⊎ Gathers D.life self.old wishes.now self.new }
        ensures journaled { Journaled D.is_modelled (shown_on D.life self.old.core) (shown_on D.life self.new.core) }
    {
        recovery::laws::calls_go_on::<D>();
        serializability::laws::answers_are_serial();
        self.core.is_durable();
        if !self.chosen.choose(&self.core, &self.places, wishes) {
            return;
        }
        let Some(has_failed) = ask_together(&mut self.core, &mut self.chosen) else {
            return;
        };
        list_all(
            &mut self.calls,
            &mut self.places,
            &mut self.left,
            &self.chosen.members,
            has_failed,
        );
    }
}
