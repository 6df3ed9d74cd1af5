//! SYNCCRD.

ghost use Rattle.std.specs.Prelude.{◌≡◌, length, nat_le, true};
ghost use Rattle.std.specs.List.{list_all};
ghost use Rattle.sql_commands.specs.SyncControl as spec;

use command_kit::ReplyText;
use sqlam_replies::{ReplyKind, synccrd, synccrd_with};
use std::alloc::AllocError;
use xa_calls::{XaCode, Xid, Xids};

/// The most bytes that a SYNCCRD has: it lists at most 256 branches, whose XIDs have at most 140 bytes.
pub(crate) const MAX_CARD_LENGTH: usize = 36_894;

/// The SYNCCRD of a code, of 12 bytes.
#[derive(Clone, Copy)]
pub(crate) struct CodeCard {
    pub(crate) code: XaCode,
}

impl ReplyText for CodeCard {
    ghost reply = { λ c. spec.code_card c.code };

    ghost most = { λ _. 12 };

    ghost can_write = { λ _. Unit {0} };

    fn kind(&self) -> ReplyKind {
        ReplyKind::Object
    }

    fn severity(&self) -> u16 {
        0
    }

    #[tactic(auto, using(crate::proofs::CardLengths::code_card_length))]
    fn write(&self, out: &mut Vec<u8>) -> Result<(), AllocError> {
        synccrd(out, self.code.number())
    }
}

// XIDs have at most 140 bytes.
#[tactic(auto, using(crate::proofs::CardLengths::xid_is_short))]
fn xids_are_short(xids: &[Xid])
    ensures { list_all (λ xid. nat_le (length xid) 140) xids.now ≡ true }
{
    for xid in xids {
        let _bytes = xid.as_bytes();
    }
}

/// The SYNCCRD with the branches in doubt, of at most `MAX_CARD_LENGTH` bytes.
#[derive(Clone, Copy)]
pub(crate) struct InDoubtCard<'a> {
    pub(crate) xids: &'a Xids,
}

impl<'a> ReplyText for InDoubtCard<'a> {
    ghost reply = { λ c. spec.in_doubt_card c.xids.now };

    ghost most = { λ _. 36894 };

    ghost can_write = { λ _. Unit {0} };

    fn kind(&self) -> ReplyKind {
        ReplyKind::Object
    }

    fn severity(&self) -> u16 {
        0
    }

    #[tactic(auto, using(crate::proofs::CardLengths::in_doubt_card_length))]
    fn write(&self, out: &mut Vec<u8>) -> Result<(), AllocError> {
        let xids = self.xids.as_slice();
        xids_are_short(xids);
        synccrd_with(out, XaCode::Done.number(), xids)
    }
}
