//! Objects written at the end of a buffer.

ghost use Rattle.std.specs.Prelude.{◌≡◌, ◌+◌, ◌-◌, ◌≤◌, ◌<◌, ◌++◌, ◌∷◌, [], List, length, OnOk, OnErr, IfOk, take, drop, vec_len};
ghost use Rattle.std.specs.Vec.{vec_capacity};
ghost use Rattle.ddm_objects.specs.Objects.{heading};
ghost use Rattle.ddm_objects.specs.Writing.{form_for, spelled, unset};

use std::alloc::AllocError;

/// What stands before an object's data: 4 bytes, or 8 or 12 with an extended length.
#[derive(Clone, Copy)]
struct Heading {
    bytes: [u8; 12],
    size: usize,
}

fn heading_of(code: u16, size: usize) -> Heading
    ensures bytes { take result.size result.bytes ≡ heading (form_for size) code size }
    ensures short { result.size ≤ 12 }
    ensures long { 4 ≤ result.size }
{
    let [c, d] = code.to_be_bytes();
    if size <= 32763 {
        let [a, b] = ((size + 4) as u16).to_be_bytes();
        return Heading {
            bytes: [a, b, c, d, 0, 0, 0, 0, 0, 0, 0, 0],
            size: 4,
        };
    }
    let [e, f, g, h, i, j, k, l] = (size as u64).to_be_bytes();
    if size < 0x1_0000_0000 {
        return Heading {
            bytes: [0x80, 0x08, c, d, i, j, k, l, 0, 0, 0, 0],
            size: 8,
        };
    }
    Heading {
        bytes: [0x80, 0x0C, c, d, e, f, g, h, i, j, k, l],
        size: 12,
    }
}

/// Appends an object with this code point and these data. The length is the plain one for up to
/// 32,763 bytes of data and an extended one of 4 bytes past that (of 8 bytes past 4,294,967,295).
///
/// Where memory is refused, nothing is appended.
#[tactic(auto, unfolding(crate::specs::Writing::spelled))]
pub fn put(out: &mut Vec<u8>, code: u16, value: &[u8]) -> Result<(), AllocError>
    ensures ok { OnOk result (out.new.items ≡ out.old.items ++ spelled code value.now) }
    ensures err { OnErr result (out.new.items ≡ out.old.items) }

    // It fails only where room is missing, and room is never given back.
    ensures full { OnErr result (vec_capacity out.old < vec_len out.old + length (spelled code value.now)) }
    ensures capacity { vec_capacity out.old ≤ vec_capacity out.new }
{
    let heading = heading_of(code, value.len());
    out.reserve(heading.size + value.len())?;
    out.extend_from_slice(&heading.bytes[..heading.size])?;
    out.extend_from_slice(value)
}

/// A container whose data are still to be appended: the place where it begins, and its code point.
#[derive(Clone, Copy, Debug)]
pub struct Opened {
    /// How many bytes stand before the container.
    pub at: usize,
    /// Its code point.
    pub code: u16,
}

/// Appends four bytes in which the length and the code point of a container will stand; what is
/// appended from then on are its data, until it is closed.
///
/// Where memory is refused, nothing is appended.
pub fn open(out: &mut Vec<u8>, code: u16) -> Result<Opened, AllocError>
    ensures ok { OnOk result (out.new.items ≡ out.old.items ++ unset) }
    ensures opened { IfOk result (λ c. (c.at ≡ vec_len out.old) × (c.code ≡ code)) }
    ensures err { OnErr result (out.new.items ≡ out.old.items) }
    ensures full { OnErr result (vec_capacity out.old < vec_len out.old + 4) }
    ensures capacity { vec_capacity out.old ≤ vec_capacity out.new }
{
    let at = out.len();
    out.extend_from_slice(&[0, 0, 0, 0])?;
    Ok(Opened { at, code })
}

/// Ends a container: what stands behind its four bytes becomes its data. Data past 32,763 bytes move
/// by 4 bytes (8 past 4,294,967,295), which may want memory; the buffer is unchanged then.
#[tactic(auto, unfolding(crate::specs::Writing::spelled))]
pub fn close(out: &mut Vec<u8>, container: Opened) -> Result<(), AllocError>
    requires { container.at + 4 ≤ vec_len out.old }
    ensures ok { OnOk result (out.new.items ≡ take container.at out.old.items ++ spelled container.code (drop (container.at + 4) out.old.items)) }
    ensures err { OnErr result (out.new.items ≡ out.old.items) }
    ensures full { OnErr result (vec_capacity out.old < container.at + length (spelled container.code (drop (container.at + 4) out.old.items))) }
    ensures capacity { vec_capacity out.old ≤ vec_capacity out.new }
{
    let begin = container.at + 4;
    let end = out.len();
    let heading = heading_of(container.code, end - begin);
    if heading.size > 4 {
        out.extend_from_slice(&[0; 8][..heading.size - 4])?;
        out.copy_within(begin..end, container.at + heading.size);
    }
    out[container.at..container.at + heading.size].copy_from_slice(&heading.bytes[..heading.size]);
    Ok(())
}
