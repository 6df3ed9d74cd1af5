//! DSSs that are written, of the format 01 and the correlator 1234.

use crate::told::tell_bytes;
use dss_frames::{DssType, Format, close_dss, open_dss, write_dss, written_length};
use std::alloc::{AllocError, Global};

const FORMAT: Format = Format { byte: 0x01 };

/// Tells how many bytes the DSS of these contents takes, and the DSS, behind other bytes, in a list that has room for so many.
pub fn tell_written(
    alloc: Global,
    room: usize,
    front: &[u8],
    contents: &[u8],
    told: &mut String,
) -> Result<(), AllocError> {
    let mut out = Vec::with_capacity(alloc, room)?;
    out.extend_from_slice(front)?;
    write_dss(&mut out, FORMAT, 0x1234, contents)?;
    let length = written_length(contents.len().min(100_000));
    write!(told, "{length} bytes: ")?;
    tell_bytes(told, &out)
}

fn write_in_place(out: &mut Vec<u8>, contents: &[u8]) -> Result<(), AllocError> {
    let dss = open_dss(out)?;
    out.extend_from_slice(contents)?;
    close_dss(out, dss, FORMAT, 0x1234)
}

/// Tells the DSS behind another byte, where its contents are appended where they stand.
pub fn tell_written_in_place(
    alloc: Global,
    contents: &[u8],
    told: &mut String,
) -> Result<(), AllocError> {
    let mut out = Vec::new(alloc);
    out.push(0x07)?;
    write_in_place(&mut out, contents)?;
    tell_bytes(told, &out)
}

/// Tells whether a format is chained, goes on after an error and has the same correlator, and the type of its DSS.
pub fn tell_format(bytes: &[u8], told: &mut String) -> Result<(), AllocError> {
    let format = Format {
        byte: bytes.first().copied().unwrap_or(0),
    };
    let (chained, goes_on) = (format.is_chained(), format.continues_on_error());
    let (same, kind) = (format.has_same_correlator(), format.dss_type());
    write!(
        told,
        "chained {chained}, goes on {goes_on}, same correlator {same}, {kind:?}"
    )
}
