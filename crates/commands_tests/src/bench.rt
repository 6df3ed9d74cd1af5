//! A conversation's statements and replies, over a core.

use crate::replies::tell_replies;
use crate::rows::rows_of;
use crate::scripted::{Script, Scripted, script_of};
use command_kit::{Replies, ReplyList, Statements, statement_of};
use cursor_commands::most_length;
use drda_commands::{Accepted, Stage, judge};
use dss_frames::{Group, written_length};
use sql_commands::{do_sync_control, end_unit, execute_immediate};
use sqlam_replies::UnitEnd;
use std::alloc::{AllocError, Global};
use test_bytes::bytes_of;
use xa_calls::{InvalidRequest, Request, Xid, Xids};

const RDB: &'static [u8] = b"DRDADB";

/// What a conversation keeps, the core that it asks, and what it was replied.
#[derive(Drop)]
pub struct Bench {
    pub alloc: Global,
    pub statements: Statements,
    pub asker: Scripted,
    pub replies: Replies,
}

// The branch of an XID in doubt, or none where there is no XID.
fn in_doubt(alloc: Global, xid: &[u8]) -> Option<Xids> {
    let mut xids = Vec::new(alloc);
    if let Ok(xid) = Xid::read(xid) {
        xids.push(xid).ok()?;
    }
    if xids.len() > 256 {
        return None;
    }
    Some(Xids::of(xids))
}

// The bytes that replies take as DSSs.
fn written(replies: ReplyList<'_>) -> usize {
    let mut length: usize = 0;
    let mut left = replies;
    for _ in 0..100_u32 {
        let Some((reply, others)) = left.split_first() else {
            return length;
        };
        length = length.saturating_add(written_length(reply.text.len().min(20_000_000)));
        left = others;
    }
    usize::MAX
}

fn tell_request(
    request: &Option<Result<Request, InvalidRequest>>,
    told: &mut String,
) -> Result<(), AllocError> {
    match request {
        Some(Ok(Request::Branch(verb, xid))) => {
            let (global, branch) = (xid.global(), xid.branch());
            write!(told, ", {verb:?} of {global:?} {branch:?}")
        }
        Some(Ok(Request::Recover)) => told.push_str(", Recover"),
        Some(Err(InvalidRequest)) => told.push_str(", no call"),
        None => Ok(()),
    }
}

impl Bench {
    /// Nothing is kept, and the core is closed.
    pub fn new(alloc: Global) -> Bench {
        Bench {
            alloc,
            statements: Statements::new(alloc),
            asker: Scripted::new(alloc, Script::Closed),
            replies: Replies::new(alloc),
        }
    }

    /// Begins anew over a core with a script, and what stands behind its name: the lengths of rows, or an XID in doubt.
    pub fn begin(&mut self, word: &str, rest: &str) -> Result<(), AllocError> {
        let script = script_of(word).unwrap_or(Script::Closed);
        self.statements = Statements::new(self.alloc);
        self.replies = Replies::new(self.alloc);
        self.asker = Scripted::new(self.alloc, script);
        match script {
            Script::Rows => self.asker.rows = rows_of(self.alloc, rest),
            Script::InDoubt => {
                self.asker.in_doubt = in_doubt(self.alloc, &bytes_of(self.alloc, &[rest])?);
            }
            _ => {}
        }
        Ok(())
    }

    /// Prepares a statement in the section that commands mean.
    pub fn prepare(&mut self, text: &str) -> Result<(), AllocError> {
        match statement_of(self.alloc, text.as_bytes()) {
            Ok(statement) => {
                let done = self
                    .statements
                    .sections
                    .prepare(&[0x40; 64], &statement, false);
                drop(statement);
                done
            }
            Err(_) => Err(AllocError),
        }
    }

    /// Ends the unit.
    pub fn end(&mut self, end: UnitEnd) -> Result<(), AllocError> {
        end_unit(
            end,
            RDB,
            &mut self.statements,
            &mut self.asker,
            &mut self.replies,
        )
    }

    /// Does a command on a cursor: whether its replies take no more room than was told; None where it is not accepted.
    pub fn do_cursor<'a>(
        &mut self,
        contents: &'a [u8],
        objects: Group<'a>,
    ) -> Result<Option<bool>, AllocError> {
        let Ok(accepted) = judge(Stage::Opened, false, contents, objects) else {
            return Ok(None);
        };
        let room = most_length(&accepted, &self.statements).saturating_add(written(
            self.replies.as_list(),
        ));
        cursor_commands::do_command(
            self.alloc,
            accepted,
            RDB,
            &mut self.statements,
            &mut self.asker,
            &mut self.replies,
        )?;
        Ok(Some(written(self.replies.as_list()) <= room))
    }

    fn do_sql(&mut self, accepted: Accepted<'_>) -> Result<(), AllocError> {
        sql_commands::do_command(
            self.alloc,
            accepted,
            RDB,
            false,
            &mut self.statements,
            &mut self.asker,
            &mut self.replies,
        )
    }

    fn do_immediate(&mut self, accepted: Accepted<'_>) -> Result<(), AllocError> {
        execute_immediate(
            self.alloc,
            accepted,
            RDB,
            &mut self.statements,
            &mut self.asker,
            &mut self.replies,
        )
    }

    fn do_sync(&mut self, accepted: Accepted<'_>) -> Result<(), AllocError> {
        do_sync_control(
            accepted,
            &mut self.statements,
            &mut self.asker,
            &mut self.replies,
        )
    }

    /// Does a command that is accepted: an SQL command, EXCSQLIMM alone, or a SYNCCTL.
    pub fn do_accepted(&mut self, verb: &str, accepted: Accepted<'_>) -> Result<(), AllocError> {
        match verb {
            "sql" => self.do_sql(accepted),
            "immediate" => self.do_immediate(accepted),
            _ => self.do_sync(accepted),
        }
    }

    /// Tells how often the core was asked, the digits that it saw, the call that it was asked for, whether a change is told, and all replies.
    pub fn tell(&self, told: &mut String) -> Result<(), AllocError> {
        let (asked, seen) = (self.asker.asked, self.asker.seen);
        let is_told = self.statements.is_change_told;
        write!(told, "asked {asked}, saw {seen}, change told {is_told}")?;
        tell_request(&self.asker.request, told)?;
        tell_replies(self.replies.as_list(), told)
    }
}
