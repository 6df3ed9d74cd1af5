//! A core that is asked.

use core_calls::{Answer, CoreCall, Refusal};
use rdb_core::Core;
use std::alloc::Global;
use std::marker::Model;
use test_bytes::bytes_of;
use test_calls::{Calls, Scripts, push_answer, push_text, xid_of};
use test_core::Unpaged;
use unit_records::NoRecords;
use xa_calls::{InvalidRequest, Request};
use xa_manager::{BranchState, Decision};

/// A core whose tables have no pages, and what its last answer has besides.
#[derive(Drop)]
pub struct Bench {
    alloc: Global,
    core: Core<Unpaged<NoRecords>>,
    besides: Vec<u8>,
}

impl Model for Bench {
    ghost use Rattle.paged_tables.specs.TablesByName.{LieInside};
    ghost use Rattle.unit_records.specs.declared.memory.NoRecords.{NoRecords};
    ghost use Rattle.rdb_core.specs.State.{pages_of};
    ghost use Rattle.rdb_core.specs.declared.engine.Core.{Core};
    ghost use Rattle.test_core.specs.declared.unpaged.Unpaged.{Unpaged};

    ghost Value = { Core (Unpaged NoRecords) };

    ghost view = { λ b. b.core };

    ghost invariant = { λ b. LieInside 0 (pages_of b.core) };
}

// The bytes that a word spells, which is - where there are none.
fn unless_absent<'b>(word: &str, bytes: &'b [u8]) -> Option<&'b [u8]> {
    if word == "-" { None } else { Some(bytes) }
}

// What a SYNCTYPE, XAFLAGS and XID data ask for, each in digits, or - where it is not there.
fn request_of(alloc: Global, text: &str) -> Option<Result<Request, InvalidRequest>> {
    let (kind, rest) = text.split_once(' ')?;
    let (flags, xid) = rest.split_once(' ')?;
    let bytes = bytes_of(alloc, &[kind, flags, xid]).ok()?;
    match bytes.as_slice() {
        [kind, rest @ ..] => {
            let (given, data) = rest.split_at((flags.len() / 2).min(rest.len()));
            let (given, data) = (unless_absent(flags, given), unless_absent(xid, data));
            Some(Request::read(*kind, given, data))
        }
        [] => None,
    }
}

// The places of columns that are described, and whether a statement is refused for its meaning.
fn push_besides(answer: &Answer, out: &mut Vec<u8>) -> Option<()> {
    match answer {
        Answer::Output(columns) if !columns.selected().is_empty() => {
            push_text(out, " at")?;
            for place in columns.selected() {
                out.extend_from_slice(&[b' ', b'0'.saturating_add(*place)])
                    .ok()?;
            }
            Some(())
        }
        Answer::Refused(Refusal::Meaning(_)) => push_text(out, " by its meaning"),
        _ => Some(()),
    }
}

impl Bench {
    /// A core without tables.
    pub fn new(alloc: Global) -> Bench {
        let recorder = NoRecords;
        Bench {
            alloc,
            core: Core::start(alloc, Unpaged { recorder }),
            besides: Vec::new(alloc),
        }
    }

    /// A core without tables again.
    pub fn restart(&mut self) {
        let recorder = NoRecords;
        self.core = Core::start(self.alloc, Unpaged { recorder });
    }

    // What becomes of a branch that is to be decided heuristically.
    fn decide(&mut self, branch: &str, word: &str) -> Option<&'static str> {
        let xid = xid_of(self.alloc, branch)?;
        let decision = match word {
            "commit" => Decision::Commit,
            "rollback" => Decision::RollBack,
            _ => return None,
        };
        match self.core.branch_state(&xid) {
            Some(BranchState::Prepared) => {}
            Some(_) => return Some("not in doubt"),
            None => return Some("not in doubt"),
        }
        self.core.decide(&xid, decision).ok()?;
        Some("decided")
    }

    fn push_synced(&mut self, conversation: u64, text: &str, out: &mut Vec<u8>) -> Option<()> {
        let request = request_of(self.alloc, text)?;
        push_answer(self.alloc, out, &self.core.xa(conversation, &request))
    }

    /// Does what a call asks for, and appends a line of what it is answered.
    pub fn hear(&mut self, call: &str, out: &mut Vec<u8>) -> Option<()> {
        self.besides.clear();
        Scripts::new(self.alloc).tell(self, call, out)?;
        out.extend_from_slice(&self.besides).ok()?;
        push_text(out, "\n")
    }
}

impl Calls for Bench {
    fn step(&mut self, conversation: u64, call: &CoreCall<'_, '_, '_>) -> Option<Answer> {
        let answer = self.core.step(conversation, call);
        match push_besides(&answer, &mut self.besides) {
            Some(()) => Some(answer),
            None => None,
        }
    }

    // `sync` has the number of a conversation behind it, and then a SYNCTYPE, XAFLAGS and XID data; `decide` XID data, and `commit` or
    // `rollback`.
    fn do_other(
        &mut self,
        _scripts: &Scripts,
        verb: &str,
        rest: &str,
        out: &mut Vec<u8>,
    ) -> Option<()> {
        let (first, text) = rest.split_once(' ')?;
        match verb {
            "sync" => self.push_synced(first.parse::<u64>().ok()?, text, out),
            "decide" => push_text(out, self.decide(first, text)?),
            _ => None,
        }
    }
}
