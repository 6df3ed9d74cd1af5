//! Keys that claims can have.

ghost use Rattle.std.specs.Prelude.{◌≤◌, length};

/// A key, short enough for a claim.
#[derive(Drop)]
pub(crate) struct Key {
    pub(crate) bytes: Vec<u8>,
    ghost short: { length bytes.items ≤ 8012 },
}
