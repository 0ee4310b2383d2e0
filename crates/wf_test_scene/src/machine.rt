//! What the processes of a simulated farm run on.

use crate::lag::Lag;
use std::alloc::{Allocator, Global};
use std::cell::Cell;
use std::fmt::Display;
use std::fs::{File, Metadata, OpenOptions};
use std::io;
use std::io::ErrorKind;
use std::net::{Net, SocketAddr, TcpListener, TcpStream};
use std::rt::{Clock, Files};
use std::time::Duration;

/// The seconds from 1970 to when a play begins.
const EPOCH_SECONDS: u64 = 1_800_000_000;

/// A runtime whose time is set by the driver of a play, and goes on within syncs that take time. It
/// has no files and no sockets of the system. Lines of errors are counted, and printed where that
/// was asked.
#[derive(Drop)]
pub struct Machine<'a, R> {
    rt: &'a R,
    alloc: Global,
    lag: &'a Lag,
    millis: Cell<u64>,
    lines: Cell<u64>,
    is_printed: bool,
}

impl<'a, R> Machine<'a, R> {
    /// A runtime whose time is 0.
    pub fn new(rt: &'a R, alloc: Global, lag: &'a Lag, is_printed: bool) -> Self {
        Machine {
            rt,
            alloc,
            lag,
            millis: Cell::new(0),
            lines: Cell::new(0),
            is_printed,
        }
    }

    /// The time that syncs take.
    pub fn lag(&self) -> &'a Lag {
        self.lag
    }

    /// The time, in milliseconds.
    pub fn millis(&self) -> u64 {
        self.millis.get()
    }

    /// Sets the time.
    pub fn set_millis(&self, millis: u64) {
        self.millis.set(millis);
    }

    /// How many lines were written.
    pub fn lines(&self) -> u64 {
        self.lines.get()
    }

    /// The time since the play began, with what the syncs of this turn took, in milliseconds.
    fn elapsed(&self) -> u64 {
        self.millis.get().saturating_add(self.lag.passed())
    }
}

impl<'a, R> Alloc for Machine<'a, R> {
    type A = Global;

    fn alloc(&self) -> Global {
        self.alloc
    }
}

impl<'a, R> Clock for Machine<'a, R> {
    fn monotonic(&self) -> io::Result<Duration> {
        Ok(Duration::from_millis(self.elapsed()))
    }

    fn since_1970(&self) -> io::Result<Duration> {
        let millis = EPOCH_SECONDS
            .saturating_mul(1_000)
            .saturating_add(self.elapsed());
        Ok(Duration::from_millis(millis))
    }
}

impl<'a, R: Eprint> Eprint for Machine<'a, R> {
    fn eprint<D: Display + Drop>(&self, value: D) -> io::Result<()> {
        if self.is_printed {
            return self.rt.eprint(value);
        }
        drop(value);
        Ok(())
    }

    fn eprintln<D: Display + Drop>(&self, value: D) -> io::Result<()> {
        self.lines.set(self.lines.get().saturating_add(1));
        if self.is_printed {
            return self.rt.eprintln(value);
        }
        drop(value);
        Ok(())
    }
}

/// The error of each call of the system.
fn unsupported() -> io::Error {
    io::Error::from(ErrorKind::Unsupported)
}

impl<'a, R> Files for Machine<'a, R> {
    type File = File;

    type Dir = &'a [u8];

    fn open_file(&self, _how: &OpenOptions, _path: &str) -> io::Result<File> {
        Err(unsupported())
    }

    fn open_dir(&self, _path: &str) -> io::Result<&'a [u8]> {
        Err(unsupported())
    }

    fn metadata(&self, _path: &str) -> io::Result<Metadata> {
        Err(unsupported())
    }

    fn symlink_metadata(&self, _path: &str) -> io::Result<Metadata> {
        Err(unsupported())
    }

    fn copy(&self, _from: &str, _to: &str) -> io::Result<u64> {
        Err(unsupported())
    }

    fn rename(&self, _from: &str, _to: &str) -> io::Result<()> {
        Err(unsupported())
    }

    fn remove_file(&self, _path: &str) -> io::Result<()> {
        Err(unsupported())
    }

    fn create_dir(&self, _path: &str) -> io::Result<()> {
        Err(unsupported())
    }

    fn remove_dir(&self, _path: &str) -> io::Result<()> {
        Err(unsupported())
    }

    fn remove_dir_all<B: Allocator>(&self, _alloc: B, _path: &str) -> io::Result<()> {
        Err(unsupported())
    }
}

impl<'a, R> Net for Machine<'a, R> {
    type Stream = TcpStream;

    type Listener = TcpListener;

    fn bind(&self, _address: SocketAddr) -> io::Result<TcpListener> {
        Err(unsupported())
    }

    fn connect(&self, _address: SocketAddr) -> io::Result<TcpStream> {
        Err(unsupported())
    }
}
