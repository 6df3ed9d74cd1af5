//! How full a store is.

/// How full a store is, in bytes of its active half, as its last checkpoint and the records since have left it. No page is read for it:
/// so what the next checkpoint takes is not in it.
#[derive(Clone, Copy, Debug, PartialEq, Eq)]
pub struct Gauge {
    /// What is left for records.
    pub room: usize,
    /// The records, of units in doubt and of all calls since the last checkpoint.
    pub records: usize,
    /// The whole journal.
    pub journal: usize,
    /// The header, the pages of the tables and those of their catalogue.
    pub tables: usize,
    /// The half, which is the journal and the tables.
    pub half: usize,
}

/// What a record has no room in.
#[derive(Clone, Copy, Debug, PartialEq, Eq)]
pub enum Lack {
    /// A journal behind a checkpoint: smaller units go through.
    Unit,
    /// The journal, until a checkpoint.
    Journal,
    /// The tables no longer fit in a half, so that no checkpoint can be written.
    Half,
}
