//! A run over the store of a disk.

ghost use Rattle.std.specs.Prelude.{◌≡◌, List, ℕ};
ghost use Rattle.recovery.specs.Durable.{Durable};
ghost use Rattle.counted_streams.specs.Counts.{counts, sink_of, source_of};
ghost use Rattle.store_service.specs.Running.{TellsFaults, IsStore, RunsCore, RunsNode, RunsStore};

use counted_streams::{Reader, Ready, Writer};
use drda_disk::Disk;
use drda_node::{DurableCore, Node, RunEnd, Settings, SettingsError, open, run};
use durable_core::OpenError;
use std::alloc::Global;
use std::io::Write;

/// Opens the store of a disk, answers event records from `reader` on `writer` for this user as `drda_node::run`
/// does, and hands the disk back.
///
/// What is read of the disk opens to a state: committed tables, and units in doubt with their claims; a crash may leave other images of it,
/// as of the disk of a server that was killed. The opening's first device call is a sync, before anything is read, and behind that a crash
/// leaves what is read. Then what is written is the answers of a machine of plain tables that begins with that state (`Runs`). The calls
/// that were asked, with these answers, lead from that state to the last one, and the units that were committed by them have a serial order
/// (`SerialRun`), where each change of a unit that was found in doubt lies in its write claims. The records of what its calls committed,
/// prepared and decided, in their order, lead from that state to what is durable of the machine. At every moment since the sync, inside of
/// a device call too, a crash leaves an image that opens to the state after the first of these records, of those that are made together all
/// or none; and behind the run, to the state after all that was made, or with it all that was begun in the call in which the device failed.
/// The run is a chain of stations, one behind each event, and what stood on the disk at one is there at each later moment: so every
/// answered commit is there, and every unit answered as prepared and undecided is in doubt, holding its claims.
///
/// Refused, nothing is written: memory was refused, the device failed, which its count of faults tells too, and before anything is read
/// where it failed in that first sync, or the name of the store is none of a database (`NotAStore`). A disk that does not open to a state
/// is refused as `durable_core::open` says.
pub fn run_store<D: Disk + Drop, R: Ready, W: Write>(
    alloc: Global,
    disk: D,
    user: &str,
    password: &str,
    reader: &mut Reader<R>,
    writer: &mut Writer<W>,
) -> (D, Result<RunEnd, OpenError>)
    ensures runs { (name : List ℕ) (d : Durable) → IsStore D.is_modelled name d (D.life disk)
        → RunsStore D.life D.syncs name d user.now password.now disk (R.remaining (source_of reader.old)) (W.contents (sink_of writer.old)) result (W.contents (sink_of writer.new)) }
    ensures cause { TellsFaults result.1 (counts reader.old writer.old) (counts reader.new writer.new) }
{
    recovery::laws::openings_begin_histories();
    recovery::laws::openings_are_kept();
    drda_node::laws::calls_are_histories();
    drda_node::laws::machines_are_serial();
    match open(alloc, disk) {
        Ok(core) => run_core(alloc, core, user, password, reader, writer),
        Err(refused) => (refused.disk, Err(refused.error)),
    }
}

/// Answers event records over a core that was opened, for this user, and hands its disk back: the run of `run_store`
/// behind its opening. What the core did is journaled, station by station.
///
/// Refused, nothing is written and no device call is made: memory was refused, or the name of the store is none of a
/// database (`NotAStore`).
pub fn run_core<D: Disk + Drop, R: Ready, W: Write>(
    alloc: Global,
    core: DurableCore<D>,
    user: &str,
    password: &str,
    reader: &mut Reader<R>,
    writer: &mut Writer<W>,
) -> (D, Result<RunEnd, OpenError>)
    ensures runs { RunsCore D.is_modelled D.life user.now password.now core (R.remaining (source_of reader.old)) (W.contents (sink_of writer.old)) result (W.contents (sink_of writer.new)) }
    ensures cause { TellsFaults result.1 (counts reader.old writer.old) (counts reader.new writer.new) }
{
    let settings = match Settings::new(alloc, user, password, core.name()) {
        Ok(settings) => settings,
        Err(SettingsError::BadName) => return (core.into_disk(), Err(OpenError::NotAStore)),
        Err(SettingsError::NoMemory) => return (core.into_disk(), Err(OpenError::NoMemory)),
    };
    match Node::start(alloc, settings, core) {
        Ok(node) => run_node(alloc, node, reader, writer),
        Err(core) => (core.into_disk(), Err(OpenError::NoMemory)),
    }
}

// Runs a node.
fn run_node<D: Disk, R: Ready, W: Write>(
    alloc: Global,
    node: Node<D>,
    reader: &mut Reader<R>,
    writer: &mut Writer<W>,
) -> (D, Result<RunEnd, OpenError>)
    ensures runs { RunsNode D.is_modelled D.life node (R.remaining (source_of reader.old)) (W.contents (sink_of writer.old)) result (W.contents (sink_of writer.new)) }
    ensures cause { TellsFaults result.1 (counts reader.old writer.old) (counts reader.new writer.new) }
{
    let mut node = node;
    let end = run(alloc, &mut node, reader, writer);
    (node.into_core().into_disk(), Ok(end))
}
