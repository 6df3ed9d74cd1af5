//! A core over a store in memory, and a conversation that is served over it.

ghost use Rattle.std.specs.Prelude.{⊤};

use command_kit::Ask;
use conversation::{Front, Settings};
use core_calls::{Answer, CoreCall};
use counted_streams::{Reader, Writer};
use drda_disk::{FuseDisk, MemDisk};
use durable_core::{DurableCore, open};
use half_store::format;
use std::alloc::{AllocError, Global};
use std::io::{Read, Write};
use stream_service::{Host, Served, serve};

/// The least store.
const TWO_MIB: usize = 2_097_152;

/// A core over a store in memory whose device may fail.
pub type Core = DurableCore<FuseDisk<MemDisk>>;

/// The core, asked for one conversation after the other.
#[derive(Drop)]
struct Asker<'a> {
    core: &'a mut Core,
}

impl Ask for Asker<'_> {
    ghost asks = { λ _ _ _ _. ⊤ };

    fn ask(&mut self, call: &CoreCall<'_, '_, '_>) -> Answer {
        self.core.step(0, call)
    }
}

/// The core of a fresh store of 2 MiB and of the name SHOP, whose device fails behind so many calls. It is an error too where the store is
/// not opened.
pub fn core_over(alloc: Global, calls: u64) -> Result<Core, AllocError> {
    let mut disk = MemDisk::new(alloc, TWO_MIB)?;
    if format(alloc, &mut disk, "SHOP").is_err() {
        return Err(AllocError);
    }
    match open(alloc, FuseDisk::new(disk, calls, false)) {
        Ok(core) => Ok(core),
        Err(_) => Err(AllocError),
    }
}

/// How a new conversation is served, for ana with the password pw and the database SHOP. None without memory.
pub fn serve_over<R: Read, W: Write, H: Host>(
    alloc: Global,
    core: &mut Core,
    reader: &mut Reader<R>,
    writer: &mut Writer<W>,
    host: &mut H,
) -> Option<Served> {
    dss_frames::laws::stays_read();
    let settings = Settings::new(alloc, "ana", "pw", "SHOP").ok()?;
    let Ok(mut front) = Front::new(alloc, &settings) else {
        return None;
    };
    let mut asker = Asker { core };
    Some(serve(alloc, &mut front, reader, writer, &mut asker, host))
}
