//! The streams of conversations, to be ended from another thread.

use std::alloc::{AllocError, Global};
use std::net::{OpenStream, Shutdown};
use std::sync::{Mutex, Wait};
use std::time::{Clock, Duration, Instant};

/// For how many seconds a conversation that has not opened the database keeps its place from a new one.
const GRACE: u64 = 1;

/// No wait of a stream is shorter, in milliseconds: where less of its time is left it has none.
const SHORTEST: u64 = 5;

/// The stream of a conversation.
#[derive(Drop)]
struct Door<K> {
    handle: Option<K>,
    conversation: u64,
    // When it came; none where the clock could not be read.
    since: Option<Instant>,
    is_opened: bool,
    is_closed: bool,
}

#[derive(Drop)]
struct House<K> {
    doors: Vec<Option<Door<K>>>,
    // The seconds that a stream's reads and writes may wait before the database is open, and then.
    login: u32,
    idle: Option<u32>,
}

/// The streams of the conversations that are served, each at its conversation's place. No contract speaks of them: to a conversation whose
/// stream is ended here it has ended by itself.
#[derive(Drop)]
pub struct Doors<K> {
    house: Mutex<House<K>>,
}

impl<K: OpenStream> Door<K> {
    // Whether it came so long ago, and has not opened the database.
    fn is_stranger<R: Clock>(&self, rt: &R, limit: Duration) -> bool {
        !self.is_opened && !self.is_closed && self.age(rt) >= limit
    }

    fn age<R: Clock>(&self, rt: &R) -> Duration {
        match self.since {
            Some(since) => since.elapsed(rt).unwrap_or(Duration::ZERO),
            None => Duration::ZERO,
        }
    }

    // Lets its reads and writes wait for what is left of its time, and no longer than this, where it has not opened the database. Where no
    // time is left it is closed, and its conversation's number answered.
    fn hasten<R: Clock>(&mut self, rt: &R, login: Duration, most: Duration) -> Option<u64> {
        if self.is_opened || self.is_closed {
            return None;
        }
        let left = login.saturating_sub(self.age(rt));
        if left < Duration::from_millis(SHORTEST) {
            self.close();
            return Some(self.conversation);
        }
        if let Some(handle) = &self.handle {
            limit(handle, Some(if left < most { left } else { most }));
        }
        None
    }

    fn close(&mut self) {
        self.is_closed = true;
        self.shut(Shutdown::Both);
    }

    fn shut(&self, how: Shutdown) {
        if let Some(handle) = &self.handle {
            let _ = handle.shutdown(how);
        }
    }
}

impl<K> House<K> {
    // How long reads and writes may wait at most, however far the conversation has come.
    fn most_silent(&self) -> Duration {
        seconds(self.idle.unwrap_or(u32::MAX))
    }
}

impl<K: OpenStream + Drop> Doors<K> {
    /// No stream at any of so many places, and the seconds that one has to open the database, and that its reads and writes may wait then.
    /// AllocError where there is no memory for the places.
    pub fn new(
        alloc: Global,
        places: usize,
        login: u32,
        idle: Option<u32>,
    ) -> Result<Doors<K>, AllocError> {
        let mut doors = Vec::new(alloc);
        for _ in 0..places {
            doors.push(None)?;
        }
        Ok(Doors {
            house: Mutex::new(House { doors, login, idle }),
        })
    }

    /// A conversation begins at a place.
    pub fn begin<R: Wait + Clock>(
        &self,
        rt: &R,
        place: usize,
        conversation: u64,
        handle: Option<K>,
    ) {
        let mut door = Door {
            handle,
            conversation,
            since: Instant::now(rt).ok(),
            is_opened: false,
            is_closed: false,
        };
        let mut house = self.house.lock(rt);
        let _ = door.hasten(rt, seconds(house.login), house.most_silent());
        if let Some(slot) = house.doors.get_mut(place) {
            *slot = Some(door);
        }
    }

    /// Lets reads and writes of the stream at a place wait no longer than is left of the time that it has to open the database. Where none
    /// is left the stream is ended, and the number of its conversation answered.
    pub fn hasten<R: Wait + Clock>(&self, rt: &R, place: usize) -> Option<u64> {
        let mut house = self.house.lock(rt);
        let (login, most) = (seconds(house.login), house.most_silent());
        match house.doors.get_mut(place) {
            Some(Some(door)) => door.hasten(rt, login, most),
            _ => None,
        }
    }

    /// The conversation at a place has opened the database.
    pub fn open<R: Wait>(&self, rt: &R, place: usize) {
        let mut house = self.house.lock(rt);
        let most = match house.idle {
            Some(count) => Some(seconds(count)),
            None => None,
        };
        if let Some(Some(door)) = house.doors.get_mut(place) {
            door.is_opened = true;
            if let Some(handle) = &door.handle {
                limit(handle, most);
            }
        }
    }

    /// Whether the stream at a place was ended here.
    pub fn is_closed<R: Wait>(&self, rt: &R, place: usize) -> bool {
        let house = self.house.lock(rt);
        match house.doors.get(place) {
            Some(Some(door)) => door.is_closed,
            _ => true,
        }
    }

    /// The conversation at a place has ended.
    pub fn end<R: Wait>(&self, rt: &R, place: usize) {
        let mut house = self.house.lock(rt);
        if let Some(slot) = house.doors.get_mut(place) {
            *slot = None;
        }
    }

    /// Ends the stream of the conversation that came first of those that have not opened the database for a second, and answers its
    /// number.
    pub fn oust<R: Wait + Clock>(&self, rt: &R) -> Option<u64> {
        let mut house = self.house.lock(rt);
        let mut oldest = Duration::from_secs(GRACE);
        let mut found = None;
        let mut place = 0usize;
        for slot in house.doors.as_slice() {
            if let Some(door) = slot {
                if door.is_stranger(rt, oldest) {
                    oldest = door.age(rt);
                    found = Some(place);
                }
            }
            place = place.saturating_add(1);
        }
        match house.doors.get_mut(found?) {
            Some(Some(door)) => {
                door.close();
                Some(door.conversation)
            }
            _ => None,
        }
    }

    /// Ends what is read from each stream of who has opened the database, and each other one; or each `wholly`.
    pub fn end_all<R: Wait>(&self, rt: &R, wholly: bool) {
        let mut house = self.house.lock(rt);
        end_doors(&mut house.doors, wholly);
    }
}

// Ends what is read from each stream of who has opened the database, or the whole stream.
fn end_doors<K: OpenStream>(doors: &mut [Option<Door<K>>], wholly: bool) {
    for slot in doors {
        if let Some(door) = slot {
            if door.is_opened && !wholly {
                door.shut(Shutdown::Read);
            } else {
                door.close();
            }
        }
    }
}

// Reads of a stream and writes on it wait so long at most, or for ever.
fn limit<K: OpenStream>(handle: &K, most: Option<Duration>) {
    let _ = handle.set_read_timeout(most);
    let _ = handle.set_write_timeout(most);
}

fn seconds(count: u32) -> Duration {
    Duration::from_secs(u64::from(count))
}
