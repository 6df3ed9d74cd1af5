//! The order of byte lists.

ghost use Rattle.std.specs.Prelude.{◌≡◌};
ghost use Rattle.drda_words.specs.Order.{precedes, IsStrictOrder};

use std::cmp::Ordering;

/// Whether `a` comes before `b`: the first byte that differs decides, and else the shorter one
/// comes first.
pub fn bytes_precede(a: &[u8], b: &[u8]) -> bool
    ensures { result ≡ precedes a.now b.now }
{
    a.cmp(b) == Ordering::Less
}

/// The order of byte lists never puts a list before itself, goes on from one to the next, and
/// compares any two lists.
pub fn order_is_strict()
    ensures { IsStrictOrder precedes }
{}

#[cfg(test)]
mod tests {
    use super::*;

    #[test]
    fn compares_bytes_then_lengths(rt: HostRuntime) {
        for (a, b, want) in [
            (b"" as &[u8], b"a" as &[u8], true),
            (b"a", b"", false),
            (b"ab", b"ab", false),
            (b"ab", b"b", true),
            (b"\x7f", b"\x80", true),
            (b"ab", b"abc", true),
        ] {
            assert_eq!(rt; bytes_precede(a, b), want, "{a:?} before {b:?}");
        }
    }
}
