//! A core that counts its records, and what is asked of it.

use crate::phases::{group_call, phase_of};
use crate::room::Room;
use crate::shown::{push_branches, push_changes, push_state};
use core_calls::{Answer, CoreCall};
use rdb_core::Core;
use std::alloc::Global;
use std::marker::Model;
use tables::TableView;
use test_calls::{Calls, Scripts, push_text, xid_of};
use test_core::Unpaged;
use unit_records::{GroupCall, GroupError, Phase};
use xa_calls::Xid;
use xa_manager::{BranchState, Decision};

/// A core whose tables have no pages.
#[derive(Drop)]
pub struct Bench {
    alloc: Global,
    core: Core<Unpaged<Room>>,
}

impl Model for Bench {
    ghost use Rattle.paged_tables.specs.TablesByName.{LieInside};
    ghost use Rattle.rdb_core.specs.State.{pages_of};
    ghost use Rattle.rdb_core.specs.declared.engine.Core.{Core};
    ghost use Rattle.test_core.specs.declared.unpaged.Unpaged.{Unpaged};
    ghost use Rattle.core_scripts_tests.specs.declared.room.Room.{Room};

    ghost Value = { Core (Unpaged Room) };

    ghost view = { λ b. b.core };

    ghost invariant = { λ b. LieInside 0 (pages_of b.core) };
}

impl Bench {
    /// A core without tables.
    pub fn new(alloc: Global) -> Bench {
        let recorder = Room::ample();
        Bench {
            alloc,
            core: Core::start(alloc, Unpaged { recorder }),
        }
    }

    // A core without tables again.
    fn restart(&mut self) {
        let recorder = Room::ample();
        self.core = Core::start(self.alloc, Unpaged { recorder });
    }

    // How many branches are in doubt.
    fn count_in_doubt(&self) -> usize {
        let mut xids = self.core.in_doubt();
        let mut count = 0_usize;
        for _ in 0..usize::MAX {
            if xids.next().is_none() {
                break;
            }
            count = count.wrapping_add(1);
        }
        count
    }

    fn push_count(&mut self, verb: &str, out: &mut Vec<u8>) -> Option<()> {
        let plain = self.core.plain().ok()?;
        let count = match verb {
            "tables" => plain.into_tables().tables().ok()?,
            "known" => plain.branches().len(),
            "doubts" => self.count_in_doubt(),
            "records" => self.core.recorder.recorder.records,
            _ => return None,
        };
        push_text(out, &format!(in self.alloc; "{count} {verb}").ok()?)
    }

    // What becomes of calls that are to be made together.
    fn together(&mut self, calls: &[GroupCall]) -> &'static str {
        if !self.core.may_make(calls) {
            return "not together";
        }
        match self.core.make_together(calls) {
            Ok(()) => "all done",
            Err(GroupError::Refused) => "refused",
            Err(GroupError::DeviceFailed) => "device failed",
        }
    }

    fn push_together(&mut self, words: &str, out: &mut Vec<u8>) -> Option<()> {
        let mut calls = Vec::new(self.alloc);
        for word in words.split_ascii_whitespace() {
            calls.push(group_call(word)?).ok()?;
        }
        push_text(out, self.together(&calls))
    }

    // What becomes of a branch that is to be decided heuristically.
    fn decide(&mut self, xid: &Xid, decision: Decision) -> &'static str {
        match self.core.branch_state(xid) {
            Some(BranchState::Prepared) => {}
            Some(_) => return "not in doubt",
            None => return "not in doubt",
        }
        match self.core.decide(xid, decision) {
            Ok(()) => "decided",
            Err(_) => "no memory",
        }
    }

    fn push_decided(&mut self, asked: &str, out: &mut Vec<u8>) -> Option<()> {
        let (branch, name) = asked.split_once(' ')?;
        let xid = xid_of(self.alloc, branch)?;
        match phase_of(name)? {
            Phase::Decide(decision) => push_text(out, self.decide(&xid, decision)),
            Phase::Prepare => None,
        }
    }
}

impl Calls for Bench {
    fn step(&mut self, conversation: u64, call: &CoreCall<'_, '_, '_>) -> Option<Answer> {
        Some(self.core.step(conversation, call))
    }

    // `fresh` is a core without tables. `look` shows the rows of T, the units that have work, and the branches; `branches` those alone, and
    // `changes` how many changes the first unit has, and their bytes. `together` makes calls together, in this order: each is C, the commit
    // of the conversation C, or PHASE:C=N, by which it asks for a phase of the branch =N; behind `room` each commit has so many changes at
    // most. `decide` decides a branch heuristically, to `commit` or to `rollback`. `tables`, `known`, `doubts` and `records` count tables,
    // branches and records.
    fn do_other(
        &mut self,
        _scripts: &Scripts,
        verb: &str,
        rest: &str,
        out: &mut Vec<u8>,
    ) -> Option<()> {
        match verb {
            "fresh" => {
                self.restart();
                push_text(out, "no table")
            }
            "look" => push_state(self.alloc, self.core.plain().ok()?, out),
            "branches" => push_branches(self.alloc, self.core.plain().ok()?.branches(), out),
            "changes" => push_changes(self.alloc, self.core.plain().ok()?.units(), out),
            "together" => self.push_together(rest, out),
            "decide" => self.push_decided(rest, out),
            "room" => {
                self.core.recorder.recorder.changes = rest.parse::<usize>().ok()?;
                push_text(out, "so many")
            }
            _ => self.push_count(verb, out),
        }
    }
}
