//! Which SYNCTYPE, XAFLAGS and XID data name a call, with values from C193 chapters 4 and 5 and this
//! server's profile.

use std::test::Fail;
use xa_calls::{Ending, Request, Verb, Xid};

const NONE: u32 = 0;

const JOIN: u32 = 0x0020_0000;

const SUSPEND: u32 = 0x0200_0000;

const SUCCESS: u32 = 0x0400_0000;

const RESUME: u32 = 0x0800_0000;

const FAIL: u32 = 0x2000_0000;

const ONE_PHASE: u32 = 0x4000_0000;

// Format 1, global part 47, branch part 42.
const XID: &[u8] = &[0, 0, 0, 1, 0, 0, 0, 1, 0, 0, 0, 1, 0x47, 0x42];

// The flags that each SYNCTYPE takes, but for a recover, which takes any, and what they ask.
const TAKEN: [(u8, u32, Verb); 11] = [
    (0x09, NONE, Verb::Start),
    (0x09, JOIN, Verb::Join),
    (0x09, RESUME, Verb::Join),
    (0x0B, SUCCESS, Verb::End(Ending::Kept)),
    (0x0B, SUSPEND, Verb::End(Ending::Kept)),
    (0x0B, FAIL, Verb::End(Ending::Failed)),
    (0x01, NONE, Verb::Prepare),
    (0x04, NONE, Verb::Commit),
    (0x04, ONE_PHASE, Verb::CommitOnePhase),
    (0x07, NONE, Verb::RollBack),
    (0x06, NONE, Verb::Forget),
];

#[test]
fn names_each_call(rt: HostRuntime) -> Result<(), Fail> {
    let xid = Xid::read(XID)?;
    for (sync_type, flags, verb) in TAKEN {
        let request = Request::read(sync_type, Some(&flags.to_be_bytes()), Some(XID))?;
        assert_eq!(rt; request, Request::Branch(verb, xid), "{sync_type} {flags}");
    }
    Ok(())
}

const FLAGS: [u32; 9] = [
    NONE,
    JOIN,
    SUSPEND,
    SUCCESS,
    RESUME,
    FAIL,
    ONE_PHASE,
    JOIN + RESUME,
    1,
];

fn is_call(sync_type: u8, flags: Option<&[u8]>, xid: Option<&[u8]>) -> bool {
    Request::read(sync_type, flags, xid).is_ok()
}

fn is_taken(sync_type: u8, flags: u32) -> bool {
    TAKEN.iter().any(|row| row.0 == sync_type && row.1 == flags)
}

#[test]
fn refuses_what_names_no_call(rt: HostRuntime) {
    for sync_type in 0..=0x0D {
        let is_recover = sync_type == 0x0C;
        for flags in FLAGS {
            let bytes = flags.to_be_bytes();
            let want = is_taken(sync_type, flags) || is_recover;
            assert_eq!(rt;
                is_call(sync_type, Some(&bytes), Some(XID)),
                want,
                "{sync_type} {flags}"
            );

            // An XID may be absent from a recover alone, and a bad one never passes.
            assert_eq!(rt;
                is_call(sync_type, Some(&bytes), None),
                is_recover,
                "{sync_type} {flags}"
            );
            assert_eq!(rt;
                is_call(sync_type, Some(&bytes), Some(&XID[..13])),
                false,
                "{sync_type} {flags}"
            );
        }
    }
}

// SYNCTYPE, whether XAFLAGS are there and their length, whether there is an XID, and whether it is a call.
const SHAPES: [(u8, Option<usize>, bool, bool); 9] = [
    (0x09, None, true, true),
    (0x0B, None, true, false),
    (0x0C, None, false, true),
    (0x09, Some(0), true, false),
    (0x09, Some(3), true, false),
    (0x09, Some(5), true, false),
    (0x0C, Some(0), false, false),
    (0x0C, Some(3), false, false),
    (0x0C, Some(5), false, false),
];

#[test]
fn flags_are_of_four_bytes(rt: HostRuntime) {
    let zeros = [0u8; 5];
    for (sync_type, length, with_xid, want) in SHAPES {
        let flags = length.map(|length| &zeros[..length.min(5)]);
        let xid = if with_xid { Some(XID) } else { None };
        assert_eq!(rt;
            is_call(sync_type, flags, xid),
            want,
            "{sync_type} {length:?}"
        );
    }
}
