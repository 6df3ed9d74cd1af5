//! An XA call, as a SYNCCTL spells it.

ghost use Rattle.std.specs.Prelude.{◌≡◌, option_copied};
ghost use Rattle.std.specs.Result.{result_ok};
ghost use Rattle.xa_calls.specs.Request.{verb_of, flags_in, branch_request, request_in};

use crate::flags::Flags;
use crate::sync_type::SyncType;
use crate::xid::Xid;
use thiserror::Error;

/// How a conversation leaves a branch.
#[derive(Clone, Copy, Debug, PartialEq, Eq)]
pub enum Ending {
    /// TMSUCCESS or TMSUSPEND: the work stays.
    Kept,
    /// TMFAIL: the branch can only be rolled back.
    Failed,
}

/// What is asked of one branch.
#[derive(Clone, Copy, Debug, PartialEq, Eq)]
pub enum Verb {
    /// `xa_start` without flags: a new branch.
    Start,
    /// `xa_start` with TMJOIN or TMRESUME.
    Join,
    /// `xa_end`.
    End(Ending),
    /// `xa_prepare`.
    Prepare,
    /// `xa_commit` of a prepared branch.
    Commit,
    /// `xa_commit` with TMONEPHASE.
    CommitOnePhase,
    /// `xa_rollback`.
    RollBack,
    /// `xa_forget`.
    Forget,
}

impl Verb {
    /// What a SYNCTYPE asks with these flags; `None` where it takes no such flags.
    pub fn of(sync_type: SyncType, flags: Flags) -> Option<Verb>
        ensures { result ≡ verb_of sync_type flags }
    {
        Some(match (sync_type, flags) {
            (SyncType::Start, Flags::NoFlags) => Verb::Start,
            (SyncType::Start, Flags::Join | Flags::Resume) => Verb::Join,
            (SyncType::End, Flags::Success | Flags::Suspend) => Verb::End(Ending::Kept),
            (SyncType::End, Flags::Fail) => Verb::End(Ending::Failed),
            (SyncType::Prepare, Flags::NoFlags) => Verb::Prepare,
            (SyncType::Commit, Flags::NoFlags) => Verb::Commit,
            (SyncType::Commit, Flags::OnePhase) => Verb::CommitOnePhase,
            (SyncType::RollBack, Flags::NoFlags) => Verb::RollBack,
            (SyncType::Forget, Flags::NoFlags) => Verb::Forget,
            _ => return None,
        })
    }
}

/// A SYNCCTL names no call that there is: its XARETVAL is that of `XaCode::Invalid`.
#[derive(Clone, Copy, Debug, PartialEq, Eq, Error)]
#[error("no XA call")]
pub struct InvalidRequest;

/// An XA call.
#[derive(Clone, Copy, Debug, PartialEq, Eq)]
pub enum Request {
    /// Something is asked of a branch.
    Branch(Verb, Xid),
    /// `xa_recover`: which branches are in doubt?
    Recover,
}

impl Request {
    /// Reads the parts of a SYNCCTL (DRDA V5 volume 3): the number of its SYNCTYPE, the data of its
    /// XAFLAGS and of its XID, each `None` where it is absent. XAFLAGS that are absent are no flags.
    ///
    /// `InvalidRequest`, before anything is asked of the table, where no SYNCTYPE has the number,
    /// XAFLAGS are not of four bytes, the SYNCTYPE takes no such flags, or XID data are absent or
    /// are none that `Xid::read` takes. `xa_recover` takes any four bytes of flags, and needs no XID;
    /// one that is there has to be read all the same.
    pub fn read(
        sync_type: u8,
        flags: Option<&[u8]>,
        xid: Option<&[u8]>,
    ) -> Result<Request, InvalidRequest>
        ensures { result_ok result ≡ request_in sync_type (option_copied flags.entry) (option_copied xid.entry) }
    {
        let Some(sync_type) = SyncType::from_number(sync_type) else {
            return Err(InvalidRequest);
        };
        let Some(flags) = flags_number(flags) else {
            return Err(InvalidRequest);
        };
        match xid {
            None if sync_type == SyncType::Recover => Ok(Request::Recover),
            None => Err(InvalidRequest),
            Some(text) => Request::of_branch(sync_type, flags, text),
        }
    }

    // The call, with XID data that are there.
    fn of_branch(sync_type: SyncType, flags: u32, text: &[u8]) -> Result<Request, InvalidRequest>
        ensures { result_ok result ≡ branch_request sync_type flags text.now }
    {
        let Ok(xid) = Xid::read(text) else {
            return Err(InvalidRequest);
        };
        if sync_type == SyncType::Recover {
            return Ok(Request::Recover);
        }
        let Some(flags) = Flags::from_number(flags) else {
            return Err(InvalidRequest);
        };
        match Verb::of(sync_type, flags) {
            Some(verb) => Ok(Request::Branch(verb, xid)),
            None => Err(InvalidRequest),
        }
    }
}

// The number of XAFLAGS: 0 where they are absent, `None` where they are not of four bytes.
fn flags_number(flags: Option<&[u8]>) -> Option<u32>
    ensures { result ≡ flags_in (option_copied flags.entry) }
{
    match flags {
        None => Some(0),
        Some(&[a, b, c, d]) => Some(u32::from_be_bytes([a, b, c, d])),
        Some(_) => None,
    }
}
