ghost use Rattle.std.specs.Prelude.{◌≡◌, ◌≤◌, ◌<◌, ◌+◌, ◌-◌, ◌++◌, List, length, take, drop, vec_len};
ghost use Rattle.drda_words.specs.Place.{part};
ghost use Rattle.dss_frames.specs.Dss.{Dss, AreDsss};
ghost use Rattle.dss_frames.specs.Group.{joined_dsss};
ghost use Rattle.dss_frames.specs.Joining.{JoinsDss, count_bytes, segment_in};

use crate::judging::{is_continued, segment_length};

/// The length of the segment there and whether a continuation follows, where the segment has come
/// whole and has `least` bytes.
fn segment_at(bytes: &[u8], at: usize, end: usize, least: usize) -> Option<(usize, bool)>
    requires before { at ≤ end }
    requires within { end ≤ length bytes.now }
    ensures { result ≡ segment_in least (end - at) (drop at bytes.now) }
{
    let [high, low, ..] = &bytes[at..] else {
        return None;
    };
    let size = segment_length(*high, *low);
    if size >= least && size <= end - at {
        Some((size, is_continued(*high, *low)))
    } else {
        None
    }
}

/// Moves bytes down to a place that is not above theirs.
fn move_down(buf: &mut Vec<u8>, from: usize, to: usize, count: usize)
    requires down { to ≤ from }
    requires within { from + count ≤ vec_len buf.old }
    ensures front { take (to + count) buf.new.items ≡ take to buf.old.items ++ take count (drop from buf.old.items) }
    ensures rest { drop (from + count) buf.new.items ≡ drop (from + count) buf.old.items }
    ensures len { vec_len buf.new ≡ vec_len buf.old }
{
    if from != to {
        buf.copy_within(from..from + count, to);
    }
}

/// Writes a count into the first three bytes there.
fn set_count(buf: &mut Vec<u8>, at: usize, count: usize)
    requires { at + 3 ≤ vec_len buf.old }
    ensures items { buf.new.items ≡ take at buf.old.items ++ count_bytes count ++ drop (at + 3) buf.old.items }
    ensures len { vec_len buf.new ≡ vec_len buf.old }
{
    buf[at] = (count / 256 / 256 % 256) as u8;
    buf[at + 1] = (count / 256 % 256) as u8;
    buf[at + 2] = (count % 256) as u8;
}

/// Joins the DSS that stands at `from`, and lets it stand at `to`. Gives the places behind it.
fn join_dss(buf: &mut Vec<u8>, from: usize, to: usize, end: usize) -> (usize, usize)
    requires down { to ≤ from }
    requires before { from ≤ end }
    requires within { end ≤ vec_len buf.old }
    ensures joined { JoinsDss buf.old.items from to end buf.new.items result }
    ensures down { result.1 ≤ result.0 }
    ensures before { result.0 ≤ end }
    ensures above { to ≤ result.1 }
    ensures further { from < end → from < result.0 }
    ensures rest { drop end buf.new.items ≡ drop end buf.old.items }
    ensures len { vec_len buf.new ≡ vec_len buf.old }
{
    let Some((size, continued)) = segment_at(buf, from, end, 6) else {
        return (end, to);
    };
    move_down(buf, from, to, size);
    let mut next = from + size;
    let mut behind = to + size;
    let mut more = continued;
    'joining: while more {
        let Some((size, continued)) = segment_at(buf, next, end, 3) else {
            return (end, to);
        };
        move_down(buf, next + 2, behind, size - 2);
        next += size;
        behind += size - 2;
        more = continued;
    }
    set_count(buf, to, behind - to - 6);
    (next, behind)
}

/// Joins the DSSs that lie there, and says how many bytes they take then.
pub(crate) fn join(buf: &mut Vec<u8>, start: usize, size: usize) -> usize
    requires { start + size ≤ vec_len buf.old }
    ensures dsss { (dsss : List Dss) → AreDsss (part buf.old.items start size) dsss → joined_dsss (part buf.new.items start result) ≡ dsss }
    ensures within { result ≤ size }
    ensures rest { drop (start + size) buf.new.items ≡ drop (start + size) buf.old.items }
    ensures len { vec_len buf.new ≡ vec_len buf.old }
{
    let end = start + size;
    let mut from = start;
    let mut to = start;
    'joining: while from < end {
        (from, to) = join_dss(buf, from, to, end);
    }
    to - start
}
