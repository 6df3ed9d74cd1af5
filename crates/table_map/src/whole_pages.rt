//! Going over pages whose rows are all left.
ghost use Rattle.std.specs.Prelude.{◌≡◌, ◌+◌, ◌*◌, ◌≤◌, IfOk, IfSome, IsTrue, length};
ghost use Rattle.drda_disk.specs.Disk.{Stays};
ghost use Rattle.drda_disk.specs.Layout.{page_bytes};
ghost use Rattle.row_pages.specs.Keeping.{CountsPageFault};
ghost use Rattle.key_map.specs.Merging.{Rows};
ghost use Rattle.table_map.specs.Cursor.{IsLeft};
ghost use Rattle.table_map.specs.Damage.{DamagedWhere, HasNoRows, SomePage};
ghost use Rattle.table_map.specs.Whole.{FallsBy, GivesPage, StandsApart, TakesMore};

use crate::{RowCursor, RowKeys};
use drda_disk::Disk;
use row_pages::{KeptPage, PageFault};
use std::alloc::Global;

impl<'a> RowCursor<'a> {
    /// Whether none of the rows of the page that was read was given, the first takes more than this room,
    /// and no change that is left comes before the last or in its place.
    fn stands_apart<K: RowKeys>(&self, keys: &K, room: usize) -> bool
        ensures { IsTrue result → StandsApart (K.key_of keys.now) room self.now.base.rows self.now.changes }
    {
        let Some(page) = self.base.whole() else {
            return false;
        };
        if page.len() == 0 || page.row(0).len() + 2 <= room {
            return false;
        }
        self.changes
            .stands_to(keys, page.row(page.len() - 1))
            .is_gt()
    }

    /// The next page of the table, where its rows are the next ones that are left: none of them was given, and
    /// no change comes before the last or in its place. `None` where that is not so, or where its first row,
    /// with two bytes for its length, has room in so many bytes; then nothing is given. The one memory that is
    /// taken is that of a page, where the next one is read. After a fault no promise is made of the rows that
    /// are left. `Damaged` is told only where one of the pages that are left is no page or has no rows.
    pub fn next_page<K: RowKeys, D: Disk>(
        &mut self,
        alloc: Global,
        keys: &K,
        disk: &mut D,
        room: usize,
    ) -> Result<Option<KeptPage>, PageFault>
        requires { self.old.base.at + page_bytes * self.old.base.pages ≤ length (D.life disk.old).seen }
        ensures given { (left : Rows) → IsTrue D.is_modelled → IsLeft (K.key_of keys.now) (D.life disk.old).seen self.old left
            → IfOk result (λ page. GivesPage (K.key_of keys.now) (D.life disk.old).seen left page self.new) }
        ensures first { IfOk result (λ page. IfSome page (λ page. TakesMore room page.rows)) }
        ensures damaged { IsTrue D.is_modelled → DamagedWhere (SomePage HasNoRows (D.life disk.old).seen self.old.base.at self.old.base.pages) result }
        ensures end { self.new.base.at + page_bytes * self.new.base.pages ≡ self.old.base.at + page_bytes * self.old.base.pages }
        ensures forward { self.old.base.at ≤ self.new.base.at }
        ensures fewer { IfOk result (λ page. FallsBy page self.old self.new) }
        ensures stays { Stays (D.life disk.old) (D.life disk.new) }
        ensures cause { CountsPageFault result (D.life disk.old).faults (D.life disk.new).faults }
    {
        key_map::laws::changes_and_rows_in_turn();
        self.base.settle(alloc, disk)?;
        if self.stands_apart(keys, room) {
            Ok(self.base.take_page())
        } else {
            Ok(None)
        }
    }
}
