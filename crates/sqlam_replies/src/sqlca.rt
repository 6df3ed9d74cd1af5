//! SQLCARD: how a statement ended.

ghost use Rattle.std.specs.Prelude.{◌≡◌, ◌<◌, ◌≤◌, ◌+◌, ◌++◌, OnOk, OnErr, length, vec_len, vec_capacity};
ghost use Rattle.sqlam_replies.specs.Sqlcard.{null_sqlcard, sqlca, sqlcard};

use ddm_objects::{code_point, put};
use std::alloc::AllocError;

// SQLCAGRP with SQLCAXGRP (DRDA V5 volume 1).
fn sqlca(code: i32, state: &[u8; 5], count: u32) -> [u8; 61]
    ensures { result ≡ sqlca code state.now count }
{
    let [c1, c2, c3, c4] = code.to_be_bytes();
    let [s1, s2, s3, s4, s5] = *state;
    let [n1, n2, n3, n4] = count.to_be_bytes();
    [
        0x00, c1, c2, c3, c4, s1, s2, s3, s4, s5, b'R', b'D', b'A', b'0', b'1', b'0', b'0', b'0',
        0x00, 0, 0, 0, 0, 0, 0, 0, 0, n1, n2, n3, n4, 0, 0, 0, 0, 0, 0, 0, 0, 0, 0, 0, 0, b' ',
        b' ', b' ', b' ', b' ', b' ', b' ', b' ', b' ', b' ', b' ', 0, 0, 0, 0, 0, 0, 0xFF,
    ]
}

/// Appends an SQLCARD with an SQLCODE, an SQLSTATE and a count of rows. Where memory is refused nothing
/// is appended, and that does not happen where the list has room for
/// [`SQLCARD_LENGTH`](crate::SQLCARD_LENGTH) bytes.
pub fn sqlcard(out: &mut Vec<u8>, code: i32, state: &[u8; 5], count: u32) -> Result<(), AllocError>
    ensures ok { OnOk result (out.new.items ≡ out.old.items ++ sqlcard code state.now count) }
    ensures err { OnErr result (out.new.items ≡ out.old.items) }
    ensures full { OnErr result (vec_capacity out.old < vec_len out.old + length (sqlcard code state.now count)) }
    ensures capacity { vec_capacity out.old ≤ vec_capacity out.new }
{
    put(out, code_point::SQLCARD, &sqlca(code, state, count))
}

/// Appends the SQLCARD that reports nothing, 5 bytes. Where memory is refused nothing is appended, and
/// that does not happen where the list has room for them.
pub fn null_sqlcard(out: &mut Vec<u8>) -> Result<(), AllocError>
    ensures ok { OnOk result (out.new.items ≡ out.old.items ++ null_sqlcard) }
    ensures err { OnErr result (out.new.items ≡ out.old.items) }
    ensures full { OnErr result (vec_capacity out.old < vec_len out.old + length null_sqlcard) }
    ensures capacity { vec_capacity out.old ≤ vec_capacity out.new }
{
    put(out, code_point::SQLCARD, &[0xFF])
}
