//! A journal behind whose records a group may be laid ahead of being added.
ghost use Rattle.std.specs.Prelude.{◌≡◌, ◌⊎◌, ◌+◌, ◌≤◌, ◌∷◌, [], IsTrue, List, length, true, IfOk, IfSome, OnOk, OnErr};
ghost use Rattle.drda_disk.specs.Region.{SameOutside, end_of};
ghost use Rattle.drda_disk.specs.Disk.{LeavesOnly, Only, Stays, CountsFault};
ghost use Rattle.unit_journal.specs.Adding.{MayAdd};
ghost use Rattle.drda_disk.specs.Errors.{OnFull};
ghost use Rattle.unit_journal.specs.Journal.{IsSettled, held_of, room_of};
ghost use Rattle.unit_journal.specs.LaidRecord.{entry_in};
ghost use Rattle.unit_journal.specs.Record.{Entry, laid as spelled};
ghost use Rattle.unit_journal.specs.Stands.{IsBeforeOrAfterAll};

use crate::{Journal, LaidGroup, LaidRecord};
use drda_disk::{Disk, DiskFault, Flushed, OPEN_GATE, WriteError, write_through};

/// A journal, and behind its records a group that may have been laid ahead of being added, behind its own closed gate: a
/// crash leaves nothing of it. So its body can be flushed from outside, and where the same records are added next, the gate
/// and its sync are left. Behind one that was flushed so a second group may be laid: one flush does then for the gate of the
/// first and the body of the second. At rest there is none, and nothing was written since the last sync.
#[derive(Drop)]
pub struct Staged {
    pub(crate) journal: Journal,
    /// The group that was laid.
    pub(crate) ahead: Option<LaidGroup>,
    /// The group that was laid behind that one, which had settled before.
    pub(crate) behind: Option<LaidGroup>,
    /// Nothing was written since the last sync.
    pub(crate) is_settled: bool,
}

// Syncs where anything was written since the last sync.
fn sync_unless<D: Disk>(is_settled: bool, disk: &mut D) -> Result<(), DiskFault>
    ensures durable { (is_settled ≡ true → Only (D.life disk.old)) → OnOk result (Only (D.life disk.new)) }
    ensures stays { Stays (D.life disk.old) (D.life disk.new) }
    ensures cause { CountsFault result (D.life disk.old).faults (D.life disk.new).faults }
{
    if is_settled {
        return Ok(());
    }
    disk.sync()
}

impl Staged {
    ghost use Rattle.unit_journal.specs.Staged.{AddsBehind, IsAtRest, IsPlaceBehind, IsUnderWay, LiesThere, MayOpenEarly, ahead_of, behind_of, has_behind, is_settled, journal_of, next_of, region_of};

    /// A journal with nothing laid behind it.
    pub fn at_rest(journal: Journal) -> Staged
        ensures journal { journal_of result ≡ journal }
        ensures rest { IsAtRest result }
    {
        Staged {
            journal,
            ahead: None,
            behind: None,
            is_settled: true,
        }
    }

    /// The journal, which ends in front of what was laid, and holds nothing back for it.
    pub fn journal(&self) -> &Journal
        ensures { result.now ≡ journal_of self.now }
    {
        &self.journal
    }

    /// Adds a record, as `Journal::append`. What was laid is given up.
    pub fn append<D: Disk>(
        &mut self,
        disk: &mut D,
        laid: &LaidRecord,
        hold: usize,
        release: usize,
    ) -> Result<(), WriteError>
        requires may { MayAdd (length (D.life disk.old).seen) (journal_of self.old) (6 + length (entry_in laid.now).body) hold release }
        ensures adds { AddsBehind D.is_modelled (D.life disk.old) (D.life disk.new) self.old self.new (entry_in laid.now ∷ []) (6 + length (entry_in laid.now).body) hold release result }
        ensures same { OnErr result (journal_of self.new ≡ journal_of self.old) }
        ensures refused { OnFull result ((self.new ≡ self.old) × (disk.new ≡ disk.old)) }
    {
        match self.journal.lacks(laid.bytes().len(), hold, release) {
            Some(full) => return Err(WriteError::Full(full)),
            None => {}
        }
        self.rest(disk)?;
        self.journal.append(disk, laid, hold, release)
    }

    /// Adds the records of a group, as `Journal::append_group`. Where the same group was laid, its gate alone is written and
    /// synced, behind a sync of what was written since the last one; another that was laid is given up.
    pub fn append_group<D: Disk>(
        &mut self,
        disk: &mut D,
        group: &LaidGroup,
        hold: usize,
        release: usize,
    ) -> Result<(), WriteError>
        requires may { MayAdd (length (D.life disk.old).seen) (journal_of self.old) (length (spelled group.now)) hold release }
        ensures adds { AddsBehind D.is_modelled (D.life disk.old) (D.life disk.new) self.old self.new group.now (length (spelled group.now)) hold release result }
        ensures same { OnErr result (journal_of self.new ≡ journal_of self.old) }
        ensures refused { OnFull result ((self.new ≡ self.old) × (disk.new ≡ disk.old)) }
    {
        match self.journal.lacks(group.len(), hold, release) {
            Some(full) => return Err(WriteError::Full(full)),
            None => {}
        }
        if self.is_ahead(group) {
            return self.open_ahead(disk, group, hold, release);
        }
        self.rest(disk)?;
        self.journal.append_group(disk, group, hold, release)
    }

    /// Lays a group ahead of being added, by one write that is not synced, and tells whether it lies there: exactly where it
    /// has room behind the records with `hold` more bytes held back and `release` fewer, at most all that the journal holds. It
    /// lies behind the group that was laid before, where that is the only one and has settled, and behind the records else: then
    /// what was laid before is given up. It is a hint: the records are those from before, and nothing is held back for it.
    pub fn lay_ahead<D: Disk>(
        &mut self,
        disk: &mut D,
        group: LaidGroup,
        hold: usize,
        release: usize,
    ) -> Result<bool, DiskFault>
        requires may { MayAdd (length (D.life disk.old).seen) (journal_of self.old) (length (spelled group)) hold release }
        ensures there { (es : List Entry) → IsUnderWay D.is_modelled (D.life disk.old) self.old es → OnOk result (IsUnderWay D.is_modelled (D.life disk.new) self.new es) }
        ensures any_moment { (es : List Entry) → IsUnderWay D.is_modelled (D.life disk.old) self.old es →
            LeavesOnly (D.life disk.old) (D.life disk.new) (IsBeforeOrAfterAll (region_of self.old) (D.life disk.old).seen es []) }
        ensures others { SameOutside (region_of self.old) (D.life disk.old).seen (D.life disk.new).seen }
        ensures journal { journal_of self.new ≡ journal_of self.old }
        ensures lies { IfOk result (λ lies. LiesThere lies (length (spelled group) + hold) release (room_of (journal_of self.old)) group self.new) }
        ensures cause { CountsFault result (D.life disk.old).faults (D.life disk.new).faults }
    {
        match self.journal.lacks(group.len(), hold, release) {
            Some(_) => {
                self.ahead = None;
                self.behind = None;
                return Ok(false);
            }
            None => {}
        }
        match self.place_behind(&group) {
            Some(at) => self.lay_behind(disk, at, group)?,
            None => self.lay_first(disk, group)?,
        }
        Ok(true)
    }

    // Where the body of a group would lie behind that of the one that was laid: there is one, which has settled, none behind it, and a place
    // for both.
    fn place_behind(&self, group: &LaidGroup) -> Option<usize>
        ensures { IfSome result (λ at. IsPlaceBehind (length (spelled group.now)) self.now at) }
    {
        match (&self.ahead, &self.behind) {
            (Some(ahead), None) if self.is_settled => self.place_over(ahead, group),
            _ => None,
        }
    }

    // Where the body of a group lies behind that of another one, if both have a place behind the records.
    fn place_over(&self, ahead: &LaidGroup, group: &LaidGroup) -> Option<usize>
        ensures { IfSome result (λ at. (at ≡ next_of self.now + 1 + length (spelled ahead.now)) × (at + length (spelled group.now) ≤ end_of (region_of self.now))) }
    {
        let next = self.journal.next + 1;
        let left = self.journal.region.at + self.journal.region.length - next;
        let (first, second) = (ahead.len(), group.len());
        if first > left || second > left - first {
            return None;
        }
        Some(next + first)
    }

    // Lays a group behind the one that was laid, there.
    fn lay_behind<D: Disk>(
        &mut self,
        disk: &mut D,
        at: usize,
        group: LaidGroup,
    ) -> Result<(), DiskFault>
        requires place { IsPlaceBehind (length (spelled group)) self.old at }
        requires inside { end_of (region_of self.old) ≤ length (D.life disk.old).seen }
        ensures there { (es : List Entry) → IsUnderWay D.is_modelled (D.life disk.old) self.old es → OnOk result (IsUnderWay D.is_modelled (D.life disk.new) self.new es) }
        ensures any_moment { (es : List Entry) → IsUnderWay D.is_modelled (D.life disk.old) self.old es →
            LeavesOnly (D.life disk.old) (D.life disk.new) (IsBeforeOrAfterAll (region_of self.old) (D.life disk.old).seen es []) }
        ensures others { SameOutside (region_of self.old) (D.life disk.old).seen (D.life disk.new).seen }
        ensures journal { journal_of self.new ≡ journal_of self.old }
        ensures lies { OnOk result (behind_of self.new ≡ group) }
        ensures cause { CountsFault result (D.life disk.old).faults (D.life disk.new).faults }
    {
        self.is_settled = false;
        disk.write_at(at, group.bytes())?;
        self.behind = Some(group);
        Ok(())
    }

    // Lays a group that has room behind the records.
    fn lay_first<D: Disk>(&mut self, disk: &mut D, group: LaidGroup) -> Result<(), DiskFault>
        requires fits { next_of self.old + 1 + length (spelled group) ≤ end_of (region_of self.old) }
        requires inside { end_of (region_of self.old) ≤ length (D.life disk.old).seen }
        ensures there { (es : List Entry) → IsUnderWay D.is_modelled (D.life disk.old) self.old es → OnOk result (IsUnderWay D.is_modelled (D.life disk.new) self.new es) }
        ensures any_moment { (es : List Entry) → IsUnderWay D.is_modelled (D.life disk.old) self.old es →
            LeavesOnly (D.life disk.old) (D.life disk.new) (IsBeforeOrAfterAll (region_of self.old) (D.life disk.old).seen es []) }
        ensures others { SameOutside (region_of self.old) (D.life disk.old).seen (D.life disk.new).seen }
        ensures journal { journal_of self.new ≡ journal_of self.old }
        ensures lies { OnOk result (ahead_of self.new ≡ group) }
        ensures cause { CountsFault result (D.life disk.old).faults (D.life disk.new).faults }
    {
        self.ahead = None;
        self.behind = None;
        self.is_settled = false;
        disk.write_at(self.journal.next + 1, group.bytes())?;
        self.ahead = Some(group);
        Ok(())
    }

    /// The disk settles, by a flush from outside or by a sync. See `Disk::settle`.
    pub fn settle<D: Disk>(&mut self, disk: &mut D, flushed: Flushed) -> Result<(), DiskFault>
        ensures there { (es : List Entry) → IsUnderWay D.is_modelled (D.life disk.old) self.old es → OnOk result (IsUnderWay D.is_modelled (D.life disk.new) self.new es) }
        ensures any_moment { (es : List Entry) → IsUnderWay D.is_modelled (D.life disk.old) self.old es →
            LeavesOnly (D.life disk.old) (D.life disk.new) (IsBeforeOrAfterAll (region_of self.old) (D.life disk.old).seen es []) }
        ensures stays { Stays (D.life disk.old) (D.life disk.new) }
        ensures cause { CountsFault result (D.life disk.old).faults (D.life disk.new).faults }
        ensures settles { OnOk result (self.new ≡ record self.old { is_settled = true }) }
        ensures same { OnErr result (self.new ≡ self.old) }
    {
        disk.settle(flushed)?;
        self.is_settled = true;
        Ok(())
    }

    /// Gives up what was laid, and syncs where anything was written since the last sync: then the journal is at rest.
    pub fn rest<D: Disk>(&mut self, disk: &mut D) -> Result<(), DiskFault>
        ensures settled { (es : List Entry) → IsUnderWay D.is_modelled (D.life disk.old) self.old es → OnOk result (IsSettled D.is_modelled (D.life disk.new) (journal_of self.old) es) }
        ensures any_moment { (es : List Entry) → IsUnderWay D.is_modelled (D.life disk.old) self.old es →
            LeavesOnly (D.life disk.old) (D.life disk.new) (IsBeforeOrAfterAll (region_of self.old) (D.life disk.old).seen es []) }
        ensures stays { Stays (D.life disk.old) (D.life disk.new) }
        ensures cause { CountsFault result (D.life disk.old).faults (D.life disk.new).faults }
        ensures journal { journal_of self.new ≡ journal_of self.old }
        ensures rest { OnOk result (IsAtRest self.new) }
    {
        self.ahead = None;
        self.behind = None;
        sync_unless(self.is_settled, disk)?;
        self.is_settled = true;
        Ok(())
    }

    /// Opens the gate of this group early, where it was laid first, has room, and the disk has settled since: whether that was done. It
    /// is a hint: all is as it was, and adding the group next needs no call of the device once the disk has settled again. Meanwhile a
    /// crash of the device leaves the records, or those and all of the group. See `Disk::write_early`.
    pub fn open_early<D: Disk>(
        &self,
        disk: &mut D,
        group: &LaidGroup,
        hold: usize,
        release: usize,
    ) -> Result<bool, DiskFault>
        requires may { MayAdd (length (D.life disk.old).seen) (journal_of self.now) (length (spelled group.now)) hold release }
        requires allowed { IsTrue D.is_modelled → length (spelled group.now) + hold ≤ room_of (journal_of self.now) + release
            → MayOpenEarly D.is_modelled (D.life disk.old) self.now group.now D.allows }
        ensures stays { Stays (D.life disk.old) (D.life disk.new) }
        ensures cause { CountsFault result (D.life disk.old).faults (D.life disk.new).faults }
    {
        let size = group.bytes().len();
        match self.journal.lacks(size, hold, release) {
            Some(_full) => return Ok(false),
            None => {}
        }
        if !self.has_settled() {
            return Ok(false);
        }
        if !self.is_ahead(group) {
            return Ok(false);
        }
        disk.write_early(self.journal.next, OPEN_GATE)
    }

    // Whether the group that was laid first has settled since.
    fn has_settled(&self) -> bool
        ensures { result ≡ true → (is_settled self.now ≡ true) ⊎ (has_behind self.now ≡ true) }
    {
        self.is_settled || self.behind.is_some()
    }

    // Whether this group was laid first.
    fn is_ahead(&self, group: &LaidGroup) -> bool
        ensures { result ≡ true → ahead_of self.now ≡ group.now }
    {
        match &self.ahead {
            Some(ahead) => ahead.is_same(group),
            None => false,
        }
    }

    // Opens the gate of this group, which was laid and has room.
    fn open_ahead<D: Disk>(
        &mut self,
        disk: &mut D,
        group: &LaidGroup,
        hold: usize,
        release: usize,
    ) -> Result<(), WriteError>
        requires ahead { ahead_of self.old ≡ group.now }
        requires inside { end_of (region_of self.old) ≤ length (D.life disk.old).seen }
        requires released { release ≤ held_of (journal_of self.old) }
        requires fits { length (spelled group.now) + hold ≤ room_of (journal_of self.old) + release }
        ensures adds { AddsBehind D.is_modelled (D.life disk.old) (D.life disk.new) self.old self.new group.now (length (spelled group.now)) hold release result }
        ensures same { OnErr result (journal_of self.new ≡ journal_of self.old) }
        ensures failed { OnFull result ⊥ }
    {
        let len = group.bytes().len();
        sync_unless(self.is_settled, disk)?;
        self.is_settled = true;
        write_through(disk, self.journal.next, &[OPEN_GATE])?;
        self.journal = Journal {
            region: self.journal.region,
            next: self.journal.next + len,
            held: self.journal.held - release + hold,
        };
        self.ahead = self.behind.take();
        Ok(())
    }
}
