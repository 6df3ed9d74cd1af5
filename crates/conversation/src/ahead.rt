//! What has come behind the command under way.

/// Where the code point of a request stands in its DSS: behind the header's six bytes and two of the length.
const CODE_POINT: usize = 8;

/// Whether bytes begin with a request that ends a unit of work: RDBCMM (200E) or RDBRLLBCK (200F).
pub(crate) fn begins_with_end(bytes: &[u8]) -> bool {
    match bytes.get(CODE_POINT..CODE_POINT + 2) {
        Some([high, low]) => *high == 0x20 && (*low == 0x0E || *low == 0x0F),
        _ => false,
    }
}
