//! The bytes of XIDs (C193 chapter 4, "Transaction Identification").

use std::test::Fail;
use xa_calls::{BadXid, Xid};

// Format 1, global part 47, branch part 42, and one byte more.
const TEXT: [u8; 15] = [0, 0, 0, 1, 0, 0, 0, 1, 0, 0, 0, 1, 0x47, 0x42, 0x43];

#[test]
fn reads_the_parts(rt: HostRuntime) -> Result<(), BadXid> {
    let xid = Xid::read(&TEXT)?;
    assert_eq!(rt; xid.format(), 1);
    assert_eq!(rt; xid.global(), b"G".as_slice());
    assert_eq!(rt; xid.branch(), b"B".as_slice());
    Ok(())
}

#[test]
fn writes_what_it_read(rt: HostRuntime) -> Result<(), Fail> {
    let mut out = [9].to_vec(rt.alloc())?;
    Xid::read(&TEXT)?.write(&mut out)?;
    assert_eq!(rt; &out[..1], [9].as_slice());
    assert_eq!(rt; &out[1..], &TEXT[..14]);
    Ok(())
}

// More bytes are skipped, and one byte less is none.
#[test]
fn reads_no_less_than_all(rt: HostRuntime) -> Result<(), BadXid> {
    assert_eq!(rt; Xid::read(&TEXT)?, Xid::read(&TEXT[..14])?);
    for length in 0..14usize {
        assert!(rt; Xid::read(&TEXT[..length]).is_err(), "{length} bytes");
    }
    Ok(())
}

// The format, the lengths of the parts, at their limits, and whether they make an XID.
const LIMITS: [(u32, u32, u32, bool); 7] = [
    (0, 1, 0, true),
    (0xFFFF_FFFE, 64, 64, true),
    (0xFFFF_FFFF, 1, 1, false),
    (0, 0, 1, false),
    (0, 65, 1, false),
    (0, 1, 65, false),
    (0, 0xFFFF_FFFF, 0, false),
];

// The head of an XID with 130 bytes behind it.
fn laid(format: u32, global: u32, branch: u32) -> [u8; 142] {
    let mut text = [0x61; 142];
    text[..4].copy_from_slice(&format.to_be_bytes());
    text[4..8].copy_from_slice(&global.to_be_bytes());
    text[8..12].copy_from_slice(&branch.to_be_bytes());
    text
}

#[test]
fn keeps_its_limits(rt: HostRuntime) {
    for (format, global, branch, want) in LIMITS {
        let read = Xid::read(&laid(format, global, branch));
        assert_eq!(rt; read.is_ok(), want, "{format} {global} {branch}");
        if let Ok(xid) = read {
            assert_eq!(rt; xid.format(), format);
            assert_eq!(rt; xid.global().len() as u32, global);
            assert_eq!(rt; xid.branch().len() as u32, branch);
        }
    }
}
