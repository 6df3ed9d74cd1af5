//! Files as disks: real ones, and one that takes a part of what it is asked, is interrupted, and fails.

use crate::calls::{number_in, numbers_in, tell, tell_both, tell_call, tell_is, tell_text};
use crate::fake_file::{FakeFile, FakePlace};
use drda_disk::{FileDisk, FileFault, FilePath, FilePlace, PositionalFile, SystemFile};
use std::alloc::{AllocError, Global};
use std::fs::{self, OpenOptions};
use std::io::{self, ErrorKind};
use std::process;

/// The files that are open as disks.
#[derive(Drop)]
pub struct Files {
    fake: Option<FileDisk<FakeFile>>,
    real: Option<FileDisk<SystemFile>>,
}

// The path of a name in the folder for temporary files.
fn path_of(rt: &HostRuntime, name: &str) -> Result<String, AllocError> {
    let id = process::id(rt.process());
    match std::env::temp_dir(rt) {
        Ok(folder) => format!(in rt.alloc(); "{}/drda_disk-{id}-{name}", folder.as_str()),
        Err(_) => Err(AllocError),
    }
}

// Makes a file of so many bytes, or opens the one that is there. Its disk takes the place of the one before; where it is refused, that
// stays.
fn take<F: PositionalFile + Drop, P: FilePlace<File = F>>(
    disk: &mut Option<FileDisk<F>>,
    place: &mut P,
    size: Option<usize>,
    out: &mut String,
) -> Result<(), AllocError> {
    let made = match size {
        Some(size) => FileDisk::create(place, size),
        None => FileDisk::open(place),
    };
    match made {
        Ok(made) => {
            *disk = Some(made);
            tell_text(out, "opened")
        }
        Err(FileFault::Io(error)) => tell(out, &error.kind()),
        Err(FileFault::InUse) => tell_text(out, "in use"),
    }
}

// Tells why the last call that failed did, or what a call of a disk answers.
fn tell_step<F: PositionalFile>(
    alloc: Global,
    disk: &mut Option<FileDisk<F>>,
    verb: &str,
    rest: &str,
    out: &mut String,
) -> Result<(), AllocError> {
    match disk {
        Some(disk) if verb == "why" => tell_fault(disk, out),
        Some(disk) => tell_call(alloc, disk, verb, rest, out),
        None => tell_text(out, "no disk"),
    }
}

fn tell_fault<F: PositionalFile>(disk: &FileDisk<F>, out: &mut String) -> Result<(), AllocError> {
    match disk.last_fault() {
        Some(fault) => writeln!(out, "  {fault}"),
        None => tell_text(out, "no fault"),
    }
}

fn cut(rt: &HostRuntime, path: &str, length: usize) -> io::Result<()> {
    let file = OpenOptions::new().write(true).open(rt, path)?;
    file.set_len(length as u64)
}

fn lock(rt: &HostRuntime, path: &str) -> io::Result<()> {
    let mut permissions = fs::metadata(rt, path)?.permissions();
    permissions.set_readonly(true);
    fs::set_permissions(rt, path, permissions)
}

// Whether a file that may not be written is refused; the system lets a privileged user write all the same.
fn is_refused(opened: Result<FileDisk<SystemFile>, FileFault>) -> bool {
    match opened {
        Err(FileFault::Io(error)) => error.kind() == ErrorKind::PermissionDenied,
        Err(FileFault::InUse) => false,
        Ok(_) => true,
    }
}

// Cuts a file off behind its disk's back, locks it, or removes it: whether that was done.
fn is_done(rt: &HostRuntime, verb: &str, path: &str, length: usize) -> bool {
    match verb {
        "cut" => cut(rt, path, length).is_ok(),
        "lock" => lock(rt, path).is_ok(),
        _ => fs::remove_file(rt, path).is_ok(),
    }
}

impl Files {
    /// No file.
    pub fn new() -> Files {
        Files {
            fake: None,
            real: None,
        }
    }

    // A file of which a call takes at most so many bytes, of every so many calls of which one is interrupted, and one call of which fails.
    fn lay_fake(&mut self, asked: &str) {
        let [most, every, failing, _] = numbers_in(asked);
        let mut file = FakeFile::new(asked.ends_with("fail"));
        file.most = most;
        file.interrupted_every = every;
        file.failing_call = failing;
        self.fake = Some(FileDisk::over(file));
    }

    // A place one of whose steps fails: whether there is a disk, how often its folder was synced, and how many files it took away.
    fn tell_place(&mut self, failing: &str, out: &mut String) -> Result<(), AllocError> {
        let mut place = FakePlace {
            failing,
            folder_syncs: 0,
            removed: 0,
        };
        self.fake = None;
        take(&mut self.fake, &mut place, Some(16), out)?;
        let (syncs, removed) = (place.folder_syncs, place.removed);
        tell_both(out, ("syncs of its folder", syncs), ("taken away", removed))
    }

    /// Does a step with a file that is none, and tells what it comes to: `over` and `place` make one, `calls` tells how many there were of
    /// it, and else it is a call of its disk.
    pub fn answer_fake(
        &mut self,
        alloc: Global,
        verb: &str,
        rest: &str,
        out: &mut String,
    ) -> Result<(), AllocError> {
        match (verb, &self.fake) {
            ("over", _) => {
                self.lay_fake(rest);
                Ok(())
            }
            ("place", _) => self.tell_place(rest, out),
            ("calls", Some(disk)) => {
                let (calls, syncs) = (disk.file().calls as u64, disk.file().syncs);
                tell_both(out, ("calls", calls), ("syncs", u64::from(syncs)))
            }
            _ => tell_step(alloc, &mut self.fake, verb, rest, out),
        }
    }

    /// Does a step with a real file, and tells what it comes to. `create`, `open`, `cut`, `lock`, `locked` and `remove` have a file's name
    /// behind them, a dot that of the folder that the program runs in, and
    /// /dev/null that device, which can't be flushed; `close` closes the disk, and else it is a call of it.
    pub fn answer_real(
        &mut self,
        rt: &HostRuntime,
        verb: &str,
        rest: &str,
        out: &mut String,
    ) -> Result<(), AllocError> {
        match verb {
            "create" | "open" | "cut" | "lock" | "locked" | "remove" => {
                let (name, number) = rest.split_once(' ').unwrap_or((rest, ""));
                if name == "." || name == "/dev/null" {
                    return self.answer_at(rt, name, verb, 0, out);
                }
                let path = path_of(rt, name)?;
                self.answer_at(rt, path.as_str(), verb, number_in(number).0, out)
            }
            "close" => {
                self.real = None;
                Ok(())
            }
            _ => tell_step(rt.alloc(), &mut self.real, verb, rest, out),
        }
    }

    fn answer_at(
        &mut self,
        rt: &HostRuntime,
        path: &str,
        verb: &str,
        number: usize,
        out: &mut String,
    ) -> Result<(), AllocError> {
        let mut place = FilePath::new(rt.alloc(), rt, path);
        match verb {
            "create" => take(&mut self.real, &mut place, Some(number), out),
            "open" => take(&mut self.real, &mut place, None, out),
            "locked" => tell_is(
                out,
                "refused, or to a privileged user opened",
                is_refused(FileDisk::open(&mut place)),
            ),
            _ => tell_is(out, "done", is_done(rt, verb, path, number)),
        }
    }
}
