//! The numbers of calls, flags and return codes: those of C193 chapter 4, and of this server's profile.

use xa_calls::{Flags, SyncType, XaCode};

const CODES: [(XaCode, i32); 9] = [
    (XaCode::Done, 0),
    (XaCode::ReadOnly, 3),
    (XaCode::RolledBack, 100),
    (XaCode::Limit, -3),
    (XaCode::Unknown, -4),
    (XaCode::Invalid, -5),
    (XaCode::Protocol, -6),
    (XaCode::Duplicate, -8),
    (XaCode::Outside, -9),
];

const CALLS: [(SyncType, u8); 7] = [
    (SyncType::Prepare, 0x01),
    (SyncType::Commit, 0x04),
    (SyncType::Forget, 0x06),
    (SyncType::RollBack, 0x07),
    (SyncType::Start, 0x09),
    (SyncType::End, 0x0B),
    (SyncType::Recover, 0x0C),
];

const FLAGS: [(Flags, u32); 7] = [
    (Flags::NoFlags, 0),
    (Flags::Join, 0x0020_0000),
    (Flags::Suspend, 0x0200_0000),
    (Flags::Success, 0x0400_0000),
    (Flags::Resume, 0x0800_0000),
    (Flags::Fail, 0x2000_0000),
    (Flags::OnePhase, 0x4000_0000),
];

#[test]
fn codes_have_their_numbers(rt: HostRuntime) {
    for (code, number) in &CODES {
        assert_eq!(rt; code.number(), *number);
    }
}

#[test]
fn calls_and_flags_have_their_numbers(rt: HostRuntime) {
    for (call, number) in &CALLS {
        assert_eq!(rt;
            (call.number(), SyncType::from_number(*number)),
            (*number, Some(*call))
        );
    }
    for (flags, number) in &FLAGS {
        assert_eq!(rt;
            (flags.number(), Flags::from_number(*number)),
            (*number, Some(*flags))
        );
    }
}
