//! Going over the rows of a table in the order of their keys.
ghost use Rattle.std.specs.Prelude.{◌≡◌, ◌+◌, ◌*◌, ◌<◌, ◌≤◌, ℕ, List, IsTrue, IfOk, length};
ghost use Rattle.std.specs.Borrow.{sem};
ghost use Rattle.drda_disk.specs.Disk.{Stays};
ghost use Rattle.drda_disk.specs.Layout.{page_bytes};
ghost use Rattle.row_pages.specs.Keeping.{CountsPageFault};
ghost use Rattle.key_map.specs.Merging.{Rows};
ghost use Rattle.table_map.specs.Cursor.{Falls, FallsAt, FindsFirst, HasGiven, IsLeft, SaysStep, Steps, row_found, smaller_of};
ghost use Rattle.table_map.specs.Damage.{DamagedWhere, HasNoRows, SomePage};
ghost use Rattle.table_map.specs.Keyed.{seen};
ghost use Rattle.table_map.specs.Lending.{EndsAs};
ghost use Rattle.table_map.specs.Walk.{IsLoaded};

use crate::RowKeys;
use crate::base::RowsLeft;
use crate::changes::ChangesLeft;
use drda_disk::Disk;
use row_pages::PageFault;
use std::alloc::Global;
use std::cmp::Ordering;

/// The rows of a table that are left, in the order of their keys: those of its pages, of which one at
/// a time is read into memory of its own, with the changes since.
#[derive(Drop)]
pub struct RowCursor<'a> {
    pub(crate) base: RowsLeft,
    pub(crate) changes: ChangesLeft<'a>,
}

/// Whose key comes first.
#[derive(Clone, Copy, Debug, PartialEq, Eq)]
pub(crate) enum Smaller {
    /// Nothing is left.
    End,
    /// A row of the pages.
    Row,
    /// A change.
    Change,
    /// Both have the same key.
    Both,
}

/// Where a row lies that is given.
#[derive(Clone, Copy)]
pub(crate) enum Place<'a> {
    /// In the page that was read, as the one that was given last.
    Page,
    /// Among the changes.
    Change(&'a [u8]),
}

/// What a step gives.
#[derive(Clone, Copy)]
pub(crate) enum Step<'a> {
    /// Nothing is left.
    End,
    /// The next row.
    Row(Place<'a>),
    /// A row was taken out here.
    Skip,
}

/// The row of a change, if it is one.
fn changed<'a>(entry: Option<(&'a [u8], &'a [u8])>) -> Step<'a>
    ensures { SaysStep entry.entry result }
{
    match entry {
        None => Step::End,
        Some((_, [])) => Step::Skip,
        Some((_, row)) => Step::Row(Place::Change(row)),
    }
}

impl<'a> RowCursor<'a> {
    /// Whose key comes first, where the rows of the page that was read are left.
    fn smaller<K: RowKeys>(&self, keys: &K) -> Smaller
        ensures { result ≡ smaller_of (K.key_of keys.now) self.now.base.rows self.now.changes }
    {
        match (self.base.first(), self.changes.first()) {
            (None, None) => Smaller::End,
            (Some(_), None) => Smaller::Row,
            (None, Some(_)) => Smaller::Change,
            (Some(row), Some((key, _))) => match keys.compare(key, row) {
                Ordering::Less => Smaller::Change,
                Ordering::Equal => Smaller::Both,
                Ordering::Greater => Smaller::Row,
            },
        }
    }

    /// One step: a row of the pages, a change, or a change in place of the row of its key.
    fn step<K: RowKeys>(&mut self, keys: &K) -> Step<'a>
        requires { IsLoaded self.old.base }
        ensures steps { (file : List ℕ) (left : Rows) → IsLeft (K.key_of keys.now) file self.old left → Steps (K.key_of keys.now) file left result self.new }
        ensures at { self.new.base.at ≡ self.old.base.at }
        ensures pages { self.new.base.pages ≡ self.old.base.pages }
        ensures fewer { Falls result self.old self.new }
    {
        key_map::laws::changes_and_rows_in_turn();
        match self.smaller(keys) {
            Smaller::End => Step::End,
            Smaller::Row => {
                self.base.give();
                Step::Row(Place::Page)
            }
            Smaller::Change => changed(self.changes.take()),
            Smaller::Both => {
                self.base.give();
                changed(self.changes.take())
            }
        }
    }

    /// Goes on to the next row, and tells where it lies.
    fn advance<K: RowKeys, D: Disk>(
        &mut self,
        alloc: Global,
        keys: &K,
        disk: &mut D,
    ) -> Result<Option<Place<'a>>, PageFault>
        requires { self.old.base.at + page_bytes * self.old.base.pages ≤ length (D.life disk.old).seen }
        ensures finds { (left : Rows) → IsTrue D.is_modelled → IsLeft (K.key_of keys.now) (D.life disk.old).seen self.old left
            → IfOk result (λ place. FindsFirst (K.key_of keys.now) (D.life disk.old).seen left place self.new) }
        ensures damaged { IsTrue D.is_modelled → DamagedWhere (SomePage HasNoRows (D.life disk.old).seen self.old.base.at self.old.base.pages) result }
        ensures end { self.new.base.at + page_bytes * self.new.base.pages ≡ self.old.base.at + page_bytes * self.old.base.pages }
        ensures forward { self.old.base.at ≤ self.new.base.at }
        ensures fewer { IfOk result (λ place. FallsAt place self.old self.new) }
        ensures stays { Stays (D.life disk.old) (D.life disk.new) }
        ensures cause { CountsPageFault result (D.life disk.old).faults (D.life disk.new).faults }
    {
        loop {
            self.base.settle(alloc, disk)?;
            match self.step(keys) {
                Step::Row(place) => return Ok(Some(place)),
                Step::End => return Ok(None),
                Step::Skip => {}
            }
        }
    }

    /// The row that lies there.
    fn lend<'s>(&'s self, place: Option<Place<'a>>) -> Option<&'s [u8]>
        ensures { seen result ≡ row_found place.entry self.now }
    {
        match place {
            None => None,
            Some(Place::Page) => self.base.last(),
            Some(Place::Change(row)) => Some(row),
        }
    }

    /// The next row, where it lies: in the page that was read or among the changes, until the cursor is
    /// used again. No row is copied; the one memory that is taken is that of a page, where the next one
    /// is read. After a fault no promise is made of the rows that are left. `Damaged` is told only where
    /// one of the pages that are left is no page or has no rows.
    pub fn next<'s, K: RowKeys, D: Disk>(
        &'s mut self,
        alloc: Global,
        keys: &K,
        disk: &mut D,
    ) -> Result<Option<&'s [u8]>, PageFault>
        requires { self.old.base.at + page_bytes * self.old.base.pages ≤ length (D.life disk.old).seen }
        ensures* given { sem 𝓛 (EndsAs self.entry (λ cursor. HasGiven D.is_modelled (K.key_of keys.now) (D.life disk.old).seen self.old result cursor)) }
        ensures damaged { IsTrue D.is_modelled → DamagedWhere (SomePage HasNoRows (D.life disk.old).seen self.old.base.at self.old.base.pages) result }
        ensures stays { Stays (D.life disk.old) (D.life disk.new) }
        ensures cause { CountsPageFault result (D.life disk.old).faults (D.life disk.new).faults }
    {
        let place = self.advance(alloc, keys, disk)?;
        Ok(self.lend(place))
    }
}
