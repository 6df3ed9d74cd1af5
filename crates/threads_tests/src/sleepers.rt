//! Who sleeps, as the system tells of this process's threads. A thread that waits for a cue yields, and does not sleep; one that has a
//! wish, waits for the lock or lets others go first does, and by nothing else can be seen that it has come so far.

use std::alloc::Global;
use std::fs::File;
use std::io::{self, Read};
use std::rt::Files;
use std::str::from_utf8;

/// Where the system has a folder for each thread, by its number.
const THREADS: &str = "/proc/self/task/";

/// A folder of so many threads is read in fewer pieces.
const MOST_PIECES: u64 = 1_000;

/// How many threads sleep; which, and how often each has run so far.
#[derive(Drop)]
struct Sleepers {
    count: u64,
    seen: String,
}

/// Whether so many threads sleep, at one moment, beside the one that lets conversations in. It is looked twice: who was never switched to
/// between has slept all the while.
pub fn are_asleep(files: &HostRuntime, alloc: Global, number: u64) -> bool {
    match (who_sleeps(files, alloc), who_sleeps(files, alloc)) {
        (Some(first), Some(second)) => {
            first.count >= number && first.seen.as_str() == second.seen.as_str()
        }
        _ => false,
    }
}

// Who sleeps now. None where the system does not tell, and without memory.
fn who_sleeps(files: &HostRuntime, alloc: Global) -> Option<Sleepers> {
    let names = names(files, alloc)?;
    let mut found = Sleepers {
        count: 0,
        seen: String::new(alloc),
    };
    for name in from_utf8(&names).ok()?.split('\0') {
        if name.parse::<u64>().is_ok() {
            found.look_at(files, alloc, name)?;
        }
    }
    Some(found)
}

// The names in the folder, with a zero behind each.
fn names(files: &HostRuntime, alloc: Global) -> Option<Vec<u8>> {
    let mut folder = files.open_dir(THREADS).ok()?;
    let mut names = Vec::new(alloc);
    let mut piece = [0u8; 4_096];
    for _ in 0..MOST_PIECES {
        let count = folder.read(&mut piece).ok()?;
        if count == 0 {
            return Some(names);
        }
        names.extend_from_slice(piece.get(..count)?).ok()?;
    }
    None
}

// What the system tells of a thread. None where there is no such thread any more, and without memory.
fn status(files: &HostRuntime, alloc: Global, name: &str) -> Option<String> {
    let path = format!(in alloc; "/proc/self/task/{name}/status").ok()?;
    io::read_to_string(alloc, File::open(files, path.as_str()).ok()?).ok()
}

impl Sleepers {
    // Counts a thread that sleeps, if it is not the first one of the process.
    fn look_at(&mut self, files: &HostRuntime, alloc: Global, name: &str) -> Option<()> {
        let Some(status) = status(files, alloc, name) else {
            return Some(());
        };
        let first = format!(in alloc; "\nTgid:\t{name}\n").ok()?;
        if status.contains(first.as_str()) || !status.contains("\nState:\tS") {
            return Some(());
        }
        self.count = self.count.saturating_add(1);
        self.seen.push_str(name).ok()?;
        let (_, switches) = status.split_once("\nvoluntary_ctxt_switches:")?;
        self.seen.push_str(switches).ok()
    }
}
