//! A writer of nested objects.

ghost use Rattle.std.specs.Prelude.{◌≡◌, ◌≢◌, [], OnOk, OnErr};
ghost use Rattle.ddm_objects.specs.Writing.{nothing_yet, opened, appended, closed, spelled};

use crate::writing::{self, Opened};
use std::alloc::{AllocError, Global};
use std::marker::Model;

/// Writes objects one in the other into one buffer: scalars, and containers that are opened, filled
/// and closed. What was written reads back as that tree (`nesting_reads_back`).
///
/// Each call that wants memory and finds none leaves the builder as it was.
#[derive(Drop)]
pub struct Builder {
    out: Vec<u8>,
    containers: Vec<Opened>,
}

impl Model for Builder {
    ghost use Rattle.std.specs.Prelude.{reverse};
    ghost use Rattle.ddm_objects.specs.Writing.{Writing};

    ghost Value = { Writing };

    ghost use Rattle.ddm_objects.specs.Levels.{writing_of, IsNested};

    ghost view = { λ b. writing_of b.out.items (reverse b.containers.items) };

    ghost invariant = { λ b. IsNested b.out.items (reverse b.containers.items) };
}

impl Builder {
    /// A builder that has written nothing.
    pub fn new(alloc: Global) -> Builder
        ensures { result ≡ nothing_yet }
    {
        Builder {
            out: Vec::new(alloc),
            containers: Vec::new(alloc),
        }
    }

    /// Opens a container in the innermost one that is open.
    pub fn open(&mut self, code: u16) -> Result<(), AllocError>
        ensures ok { OnOk result (self.new ≡ opened code self.old) }
        ensures err { OnErr result (self.new ≡ self.old) }
    {
        self.containers.reserve(1)?;
        let container = writing::open(&mut self.out, code)?;
        self.containers.push(container)?;
        Ok(())
    }

    /// Writes an object with these data into the innermost container that is open.
    pub fn scalar(&mut self, code: u16, value: &[u8]) -> Result<(), AllocError>
        ensures ok { OnOk result (self.new ≡ appended (spelled code value.now) self.old) }
        ensures err { OnErr result (self.new ≡ self.old) }
    {
        writing::put(&mut self.out, code, value)
    }

    /// Closes the innermost container that is open.
    pub fn close(&mut self) -> Result<(), AllocError>
        requires { self.old.containers ≢ [] }
        ensures ok { OnOk result (self.new ≡ closed self.old) }
        ensures err { OnErr result (self.new ≡ self.old) }
    {
        let container = self.containers[self.containers.len() - 1];
        writing::close(&mut self.out, container)?;
        let _ = self.containers.pop();
        Ok(())
    }

    /// The text that was written, once every container is closed.
    pub fn finish(self) -> Vec<u8>
        requires { self.containers ≡ [] }
        ensures { result.items ≡ self.text }
    {
        let Builder { out, containers: _ } = self;
        out
    }
}
