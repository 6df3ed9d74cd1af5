//! Whether serving ends since the device has failed.

ghost use Rattle.std.specs.Prelude.{◌≡◌, true};

use std::sync::atomic::{AtomicU64, Ordering};

/// Whether serving ends since the device has failed.
#[derive(Drop)]
pub struct Failure {
    // Whether a failure ends it.
    ends: bool,
    failed: AtomicU64,
}

impl Failure {
    /// The device has not failed; a failure ends serving, or it does not.
    pub fn new(ends: bool) -> Failure
        ensures { result.ends ≡ ends }
    {
        Failure {
            ends,
            failed: AtomicU64::new(0),
        }
    }

    /// The device has failed. Answers whether that ends serving.
    pub fn note(&self) -> bool {
        self.failed.store(1, Ordering::SeqCst);
        self.ends
    }

    /// Whether the device has failed, and that ends serving.
    pub fn ends_serving(&self) -> bool
        ensures { result ≡ true → self.now.ends ≡ true }
    {
        self.ends && self.failed.load(Ordering::SeqCst) != 0
    }
}
