//! Event records on two streams.

ghost use Rattle.std.specs.Prelude.{◌≡◌};
ghost use Rattle.counted_streams.specs.Counts.{counts, sink_of, source_of, write_faults_of};
ghost use Rattle.command_line.specs.Job.{plain_login};
ghost use Rattle.drda_program.specs.Reporting.{result_for};
ghost use Rattle.drda_program.specs.Program.{AnswersOver, PipesFile, PipesInMemory};
ghost use Rattle.drda_program.specs.Reporting.{Reports};
ghost use Rattle.drda_program.specs.Streams.{streams};

use command_line::Login;
use counted_streams::{Reader, Ready, Writer};
use drda_disk::Disk;
use drda_node::{DurableCore, RunEnd};
use durable_core::OpenError;
use std::alloc::Global;
use std::io::{Read, Write};
use store_files::{Fault, StoreFiles, fault_of, fresh, open_to_run};
use store_service::run_core;

// What is reported of a run, by its end and by whether the last flush succeeded.
fn result_of(end: RunEnd, is_flushed: bool) -> Result<(), Fault>
    ensures { result ≡ result_for end is_flushed }
{
    if !is_flushed {
        return Err(Fault::Device);
    }
    match end {
        RunEnd::Ended => Ok(()),
        RunEnd::BadEvent => Err(Fault::BadEvent),
        RunEnd::ReadFault | RunEnd::WriteFault => Err(Fault::Device),
        RunEnd::NoMemory => Err(Fault::NoMemory),
    }
}

// What is reported of a run that ended, behind a last flush, or of one that was refused.
fn report<W: Write>(ended: Result<RunEnd, OpenError>, out: &mut Writer<W>) -> Result<(), Fault>
    ensures { Reports ended (W.contents (sink_of out.old)) (write_faults_of out.old) result (W.contents (sink_of out.new)) (write_faults_of out.new) }
{
    match ended {
        Ok(end) => {
            let is_flushed = out.flush().is_ok();
            result_of(end, is_flushed)
        }
        Err(error) => Err(fault_of(error)),
    }
}

// Runs over a core: event records come in on one stream, and go out on the other.
fn answer_records<D: Disk + Drop, R: Read + Ready, W: Write>(
    alloc: Global,
    core: DurableCore<D>,
    login: Login<'_>,
    reader: &mut Reader<R>,
    out: &mut Writer<W>,
) -> Result<(), Fault>
    ensures { AnswersOver D.is_modelled D.life core (plain_login login.entry) (R.remaining (source_of reader.old)) (streams (W.contents (sink_of out.old)) (counts reader.old out.old)) result (streams (W.contents (sink_of out.new)) (counts reader.new out.new)) }
{
    let (_, ended) = run_core(alloc, core, login.user, login.password, reader, out);
    report(ended, out)
}

/// Runs over the store of a path.
pub(crate) fn answer_file<F: StoreFiles, R: Read + Ready, W: Write>(
    alloc: Global,
    files: &mut F,
    path: &str,
    login: Login<'_>,
    reader: &mut Reader<R>,
    out: &mut Writer<W>,
) -> Result<(), Fault>
    ensures { PipesFile F.Disk.is_modelled F.Disk.life F.calls F.Disk.syncs path.now (plain_login login.entry) files.old (R.remaining (source_of reader.old)) (streams (W.contents (sink_of out.old)) (counts reader.old out.old)) result files.new (streams (W.contents (sink_of out.new)) (counts reader.new out.new)) }
{
    recovery::laws::openings_begin_histories();
    recovery::laws::openings_are_kept();
    drda_node::laws::calls_are_histories();
    drda_node::laws::machines_are_serial();
    match open_to_run(alloc, files, path) {
        Ok(core) => answer_records(alloc, core, login, reader, out),
        Err(fault) => Err(fault),
    }
}

/// Runs over a store in memory that is just made.
pub(crate) fn answer_in_memory<R: Read + Ready, W: Write>(
    alloc: Global,
    rdb: &str,
    login: Login<'_>,
    reader: &mut Reader<R>,
    out: &mut Writer<W>,
) -> Result<(), Fault>
    ensures { PipesInMemory rdb.now (plain_login login.entry) (R.remaining (source_of reader.old)) (streams (W.contents (sink_of out.old)) (counts reader.old out.old)) result (streams (W.contents (sink_of out.new)) (counts reader.new out.new)) }
{
    recovery::laws::openings_begin_histories();
    recovery::laws::openings_are_kept();
    drda_node::laws::calls_are_histories();
    drda_node::laws::machines_are_serial();
    match fresh(alloc, rdb) {
        Ok(core) => answer_records(alloc, core, login, reader, out),
        Err(fault) => Err(fault),
    }
}
