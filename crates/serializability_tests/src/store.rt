//! Three tables of four keys, what a unit changes of them, and what it claims. Numbers of tables and of
//! keys are taken modulo how many there are, so that each names one.

/// How many tables may have a name here.
pub const TABLES: usize = 3;

/// How many keys a table has.
pub const KEYS: usize = 4;

/// A machine as it has to be, or one with a mistake.
#[derive(Clone, Copy)]
pub enum Machine {
    Right,
    InsertClaimsNothing,
    SelectClaimsNothing,
    SelectOfAllClaimsFoundRows,
    CreateClaimsNoNames,
    CreateReplaces,
    AbsentTableClaimsNothing,
    NothingClashes,
    ClaimsEndWithTheStatement,
    PrepareDropsReadingClaims,
}

/// What has a table's name: without a schema there is no table, and there are no rows.
#[derive(Clone, Copy, PartialEq)]
pub struct Table {
    pub schema: Option<usize>,
    pub rows: [Option<usize>; KEYS],
}

pub const NO_TABLE: Table = Table {
    schema: None,
    rows: [None; KEYS],
};

pub type Store = [Table; TABLES];

/// Whether there is no room for a third table.
pub fn is_full(store: Store) -> bool {
    let mut count: u8 = 0;
    for table in 0..TABLES {
        if store[table].schema.is_some() {
            count = count.saturating_add(1);
        }
    }
    count >= 2
}

/// What is made of the row of each key: the last row that was put, or that it was taken out.
pub type Edits = [Option<Option<usize>>; KEYS];

/// What a unit makes of each table: the schema that it creates, and its edits.
#[derive(Clone, Copy, PartialEq)]
pub struct Changes {
    pub created: [Option<usize>; TABLES],
    pub rows: [Edits; TABLES],
}

// A table that is there is not created again.
fn with_creation(machine: Machine, table: Table, created: Option<usize>) -> Table {
    let is_kept = table.schema.is_some() & !matches!(machine, Machine::CreateReplaces);
    if created.is_none() | is_kept {
        table
    } else {
        Table {
            schema: created,
            rows: [None; KEYS],
        }
    }
}

// Into no table nothing is put.
fn with_edits(table: Table, edits: Edits) -> Table {
    let Table { schema, rows } = table;
    if schema.is_none() {
        table
    } else {
        let rows = [
            edits[0].unwrap_or(rows[0]),
            edits[1].unwrap_or(rows[1]),
            edits[2].unwrap_or(rows[2]),
            edits[3].unwrap_or(rows[3]),
        ];
        Table { schema, rows }
    }
}

/// The store with these changes.
pub fn applied(machine: Machine, store: Store, changes: Changes) -> Store {
    let Changes { created, rows } = changes;
    [
        with_edits(with_creation(machine, store[0], created[0]), rows[0]),
        with_edits(with_creation(machine, store[1], created[1]), rows[1]),
        with_edits(with_creation(machine, store[2], created[2]), rows[2]),
    ]
}

/// The parts of each table: its four keys, and what it has besides.
pub static WHOLE: [u32; TABLES] = [0b11111, 0b11111_00000, 0b11111_00000_00000];

/// The list of names.
pub const NAMES: u32 = 0b11111_00000_00000_00000;

/// The part of each table that is one key.
static KEY: [u32; KEYS] = [
    0b00001_00001_00001,
    0b00010_00010_00010,
    0b00100_00100_00100,
    0b01000_01000_01000,
];

/// The most parts that a unit may claim.
const MOST_PARTS: u32 = 14;

/// The part of a table that is one key.
pub fn part(table: usize, key: usize) -> u32 {
    WHOLE[table % TABLES] & KEY[key % KEYS]
}

/// The parts that are read and written, a bit each.
#[derive(Clone, Copy, PartialEq)]
pub struct Claims {
    pub reads: u32,
    pub writes: u32,
}

pub const NO_CLAIMS: Claims = Claims {
    reads: 0,
    writes: 0,
};

impl Claims {
    pub fn with(self, more: Claims) -> Claims {
        Claims {
            reads: self.reads | more.reads,
            writes: self.writes | more.writes,
        }
    }

    /// Whether these are more than a unit may have.
    pub fn are_many(self) -> bool {
        (self.reads | self.writes).count_ones() > MOST_PARTS
    }

    pub fn clash(self, other: Claims) -> bool {
        self.writes & (other.reads | other.writes) | self.reads & other.writes != 0
    }
}
