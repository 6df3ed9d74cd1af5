//! The codes of faults.

use core_calls::SqlFault;

const FAULTS: [(SqlFault, i32, &'static [u8; 5]); 13] = [
    (SqlFault::Syntax, -104, b"42601"),
    (SqlFault::TableUnknown, -204, b"42704"),
    (SqlFault::ColumnUnknown, -206, b"42703"),
    (SqlFault::ParameterMismatch, -313, b"07001"),
    (SqlFault::TypeMismatch, -401, b"42818"),
    (SqlFault::NullGiven, -407, b"23502"),
    (SqlFault::OutOfRange, -413, b"22003"),
    (SqlFault::TooLong, -433, b"22001"),
    (SqlFault::NotPrepared, -518, b"07003"),
    (SqlFault::TableExists, -601, b"42710"),
    (SqlFault::KeyExists, -803, b"23505"),
    (SqlFault::LimitReached, -904, b"57011"),
    (SqlFault::Claimed, -913, b"57033"),
];

#[test]
fn faults_have_their_codes(rt: HostRuntime) {
    for (fault, code, state) in &FAULTS {
        assert_eq!(rt; fault.code(), *code);
        assert_eq!(rt; *fault.state(), **state);
    }
}
