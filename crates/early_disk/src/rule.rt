//! What may be written early.

ghost use Rattle.std.specs.Prelude.{List, ℕ};

/// What may be left besides what a crash leaves else, where a byte is written early.
pub trait EarlyRule {
    /// By an image that a crash may leave else, one that it may leave besides.
    ghost allows: { List ℕ → List ℕ → Type 0 };
}
