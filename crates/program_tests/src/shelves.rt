//! Files in memory.

ghost use Rattle.std.specs.Prelude.{IsTrue, true};
ghost use Rattle.durable_core.specs.Ahead.{LetsOpenEarly};

use drda_disk::{Disk, FileFault, FuseDisk, MemDisk};
use drda_program::{Reader, StoreFiles, Writer};
use std::alloc::Global;
use std::io::{self, ErrorKind};
use store_service::{RunEnd, run_store};
use test_bytes::{ACCRDB, ACCSEC, EXCSAT_ALONE, RDBCMM, SECCHK_ALONE, push_texts, sentences};
use test_core::fresh_store;

const TWO_MIB: usize = 2_097_152;

/// Where a store of 2 MiB has the number of the layout of its first half, in four bytes.
const LAYOUT_AT: usize = 8_213;

/// CREATE TABLE T000 (K INTEGER NOT NULL, PRIMARY KEY (K)), and INSERT INTO T000 VALUES (1), in front of the digits of the table and
/// behind them.
const CREATE: [&str; 2] = [
    "000A D051 0006 0004 200A 0047 D003 0006 0041 2414 00 00000037 435245415445205441424C452054",
    "20284B20494E5445474552204E4F54204E554C4C2C205052494D415259204B455920284B2929 FF",
];

const INSERT: [&str; 2] = [
    "000A D051 0006 0004 200A 002B D003 0006 0025 2414 00 0000001B 494E5345525420494E544F2054",
    "2056414C55455320283129 FF",
];

/// UPDATE T SET V = 'x..x' WHERE K = 1, with 600 letters.
const UPDATE: &str = "000A D051 0006 0004 200A 0287 D003 0006 0281 2414 00 00000277
    555044415445 20 54 20 534554 20 56 20 3D 20 27 78*600 27 20 5748455245 20 4B 20 3D 20 31 FF";

/// No record of an event has more bytes.
const MOST_IN_A_RECORD: usize = 65_536;

/// So many of them take more than an eighth of a half of 1,040,384 bytes.
const UPDATES: u64 = 250;

/// Files by their names: `store` is a fresh store SHOP, `doubt` one over which a conversation has said what leaves units in doubt, `old`
/// the same of layout 1, `crowded` the same of layout 1 with more tables than a half has pages, `laden` one with so many records that a
/// checkpoint is due, `zeros` none at all, and `damaged` one whose journal begins with a record of an unknown kind. The one that can be
/// made is `new`. The private texts `login`, `line` and `carriage` hold a login, `lines`, `blank` and `colon` none.
#[derive(Drop)]
pub struct Shelf<'a> {
    alloc: Global,
    /// The size of the file that was made, 0 before.
    pub made: usize,
    // Behind how many calls the device of a file fails.
    calls: u64,
    // What makes the store with units in doubt.
    doubtful: &'a [u8],
    // Why the last private text was not read.
    reason: &'static str,
}

impl<'a> Shelf<'a> {
    /// Each device fails behind so many calls.
    pub fn new(alloc: Global, calls: u64, doubtful: &'a [u8]) -> Shelf<'a> {
        Shelf {
            alloc,
            made: 0,
            calls,
            doubtful,
            reason: "",
        }
    }
}

impl StoreFiles for Shelf<'_> {
    type Disk = FuseDisk<MemDisk>;

    fn lets_early()
        ensures { IsTrue true → LetsOpenEarly (λ _ _. Unit {0}) }
    {}

    fn create(&mut self, path: &str, size: usize) -> Result<FuseDisk<MemDisk>, FileFault> {
        if path != "new" {
            return Err(FileFault::InUse);
        }
        self.made = size;
        match MemDisk::new(self.alloc, size) {
            Ok(disk) => Ok(FuseDisk::new(disk, self.calls, false)),
            Err(_) => Err(FileFault::InUse),
        }
    }

    fn open(&mut self, path: &str) -> Result<FuseDisk<MemDisk>, FileFault> {
        let disk = match path {
            "store" => fresh_store(self.alloc),
            "doubt" => in_doubt(self.alloc, &[], self.doubtful),
            "old" => as_layout_1(in_doubt(self.alloc, &[], self.doubtful)),
            "crowded" => crowded(self.alloc, self.doubtful),
            "laden" => laden(self.alloc),
            "zeros" => MemDisk::new(self.alloc, TWO_MIB).ok(),
            "damaged" => damaged(self.alloc),
            _ => None,
        };
        match disk {
            Some(disk) => Ok(FuseDisk::new(disk, self.calls, false)),
            None => Err(FileFault::InUse),
        }
    }

    fn discard(&mut self, _path: &str) {
        self.made = 0;
    }

    fn read_private(&mut self, alloc: Global, path: &str) -> io::Result<String> {
        let text = match path {
            "login" => "ana:pw",
            "line" => "ana:pw\n",
            "carriage" => "ana:p:w\r\n",
            "lines" => "ana:pw\n\n",
            "blank" => "",
            "colon" => "ana\n",
            _ => {
                self.reason = "drdad: it is not on the shelf\n";
                return Err(io::Error::from(ErrorKind::NotFound));
            }
        };
        Ok(String::from_str(alloc, text)?)
    }

    fn reason(&self) -> &str {
        self.reason
    }
}

fn damaged(alloc: Global) -> Option<MemDisk> {
    let mut disk = fresh_store(alloc)?;
    if disk.size() < 16_390 {
        return None;
    }
    disk.write_at(16_384, &[0xA5, 9, 0, 0, 0, 0]).ok()?;
    Some(disk)
}

fn push_record(events: &mut Vec<u8>, kind: u8, number: u8, bytes: &[u8]) -> Option<()> {
    let [a, b, c, d] = u32::try_from(bytes.len()).ok()?.to_be_bytes();
    events.extend_from_slice(&[kind, number, a, b, c, d]).ok()?;
    events.extend_from_slice(bytes).ok()
}

// Appends the records of a conversation of this number that opens and says these bytes.
fn push_said(events: &mut Vec<u8>, number: u8, said: &[u8]) -> Option<()> {
    push_record(events, 1, number, &[])?;
    let mut left = said;
    for _ in 0..said.len() {
        if left.is_empty() {
            break;
        }
        let (piece, others) = left.split_at(left.len().min(MOST_IN_A_RECORD));
        push_record(events, 2, number, piece)?;
        left = others;
    }
    Some(())
}

fn events_of(alloc: Global, before: &[u8], doubtful: &[u8]) -> Option<Vec<u8>> {
    let mut events = Vec::new(alloc);
    push_said(&mut events, 0, before)?;
    push_said(&mut events, 1, doubtful)?;
    Some(events)
}

// The store behind two conversations.
fn in_doubt(alloc: Global, before: &[u8], doubtful: &[u8]) -> Option<MemDisk> {
    let events = events_of(alloc, before, doubtful)?;
    behind(alloc, fresh_store(alloc), &events)
}

// A store behind these events. None where a run over them does not end well.
fn behind(alloc: Global, store: Option<MemDisk>, events: &[u8]) -> Option<MemDisk> {
    let store = store?;
    let mut reader = Reader::new(events);
    let mut writer = Writer::new(Vec::new(alloc));
    let (disk, end) = run_store(alloc, store, "ana", "pw", &mut reader, &mut writer);
    if end == Ok(RunEnd::Ended) {
        Some(disk)
    } else {
        None
    }
}

// A store of layout 1: its first half is the active one.
fn as_layout_1(made: Option<MemDisk>) -> Option<MemDisk> {
    let mut disk = made?;
    if disk.size() < LAYOUT_AT + 4 {
        return None;
    }
    disk.write_at(LAYOUT_AT, &[0; 4]).ok()?;
    Some(disk)
}

// A store of layout 1 with 130 tables of a row each.
fn crowded(alloc: Global, doubtful: &[u8]) -> Option<MemDisk> {
    let mut said = Vec::new(alloc);
    push_texts(&mut said, &[EXCSAT_ALONE, ACCSEC, SECCHK_ALONE, ACCRDB]).ok()?;
    for number in 100..230 {
        let (hundreds, tens, ones) = (number / 100, number / 10 % 10, number % 10);
        let name = format!(in alloc; "3{hundreds}3{tens}3{ones}").ok()?;
        let (create, insert) = (CREATE, INSERT);
        let texts = [create[0], &name, create[1], insert[0], &name, insert[1]];
        push_texts(&mut said, &texts).ok()?;
    }
    push_texts(&mut said, &[RDBCMM]).ok()?;
    as_layout_1(in_doubt(alloc, &said, doubtful))
}

// A store with a row that was changed again and again, and no checkpoint since.
fn laden(alloc: Global) -> Option<MemDisk> {
    let mut said = Vec::new(alloc);
    push_texts(&mut said, &[EXCSAT_ALONE, ACCSEC, SECCHK_ALONE, ACCRDB]).ok()?;
    push_texts(&mut said, &[sentences::CREATE, sentences::INSERT]).ok()?;
    for _ in 0..UPDATES {
        push_texts(&mut said, &[UPDATE, RDBCMM]).ok()?;
    }
    in_doubt(alloc, &said, &[])
}
