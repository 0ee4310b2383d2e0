//! A machine on which a listener of a question's own is bound, whose clock a question sets, and
//! which looks after the lock of a folder.
use std::alloc::{Allocator, Global};
use std::cell::{Cell, RefCell};
use std::fmt::Display;
use std::fs::{File, Metadata, OpenOptions};
use std::io::ErrorKind;
use std::net::{IpAddr, Ipv4Addr, Net, SocketAddr, TcpListener, TcpStream};
use std::rt::{Clock, Files};
use std::time::Duration;
use std::{fs, io};
use wf_test_table::CaseWords;

/// What the clock does when it is read.
#[derive(Clone, Copy)]
enum Reading {
    /// It tells the time.
    Now,
    /// It tells the time after so many more seconds.
    Later(u64),
    /// It fails.
    Fails(ErrorKind),
}

/// The reading that a word names.
fn reading_of(word: &str) -> Reading {
    match word {
        "" | "now" => Reading::Now,
        "interrupted" => Reading::Fails(ErrorKind::Interrupted),
        "blocked" => Reading::Fails(ErrorKind::WouldBlock),
        "reset" => Reading::Fails(ErrorKind::ConnectionReset),
        "late" => Reading::Fails(ErrorKind::TimedOut),
        _ => match word.parse::<u64>() {
            Ok(seconds) => Reading::Later(seconds),
            Err(_) => Reading::Fails(ErrorKind::Other),
        },
    }
}

/// The machine, but that it gives one listener for the first address that is asked for, and tries
/// to lock a folder whenever its clock is read, as it is for each read and each write of a
/// connection.
#[derive(Drop)]
pub(crate) struct TestMachine<'a, R> {
    rt: &'a R,
    alloc: Global,
    listener: RefCell<Option<TcpListener>>,
    asked: Cell<Option<SocketAddr>>,
    folder: &'a str,
    is_loose: Cell<bool>,
    // The clock's readings that are left; after them it tells the time.
    readings: Cell<CaseWords<'a>>,
    count: Cell<usize>,
}

impl<'a, R> TestMachine<'a, R> {
    pub(crate) fn new(
        rt: &'a R,
        alloc: Global,
        listener: TcpListener,
        folder: &'a str,
        readings: CaseWords<'a>,
    ) -> Self {
        TestMachine {
            rt,
            alloc,
            listener: RefCell::new(Some(listener)),
            asked: Cell::new(None),
            folder,
            is_loose: Cell::new(false),
            readings: Cell::new(readings),
            count: Cell::new(0),
        }
    }

    /// How often the clock was read.
    pub(crate) fn readings(&self) -> usize {
        self.count.get()
    }

    /// The clock's next reading.
    fn next(&self) -> Reading {
        self.count.set(self.count.get().saturating_add(1));
        let mut readings = self.readings.get();
        let word = readings.word();
        self.readings.set(readings);
        reading_of(word)
    }

    /// Whether any port of this machine alone was asked for.
    pub(crate) fn is_bound_here(&self) -> bool {
        match self.asked.get() {
            Some(address) => {
                address.ip() == IpAddr::V4(Ipv4Addr::LOCALHOST) && address.port() == 0
            }
            None => false,
        }
    }

    /// Whether the folder was locked whenever the clock was read.
    pub(crate) fn is_locked(&self) -> bool {
        !self.is_loose.get()
    }
}

impl<'a, R: Files<File = File>> TestMachine<'a, R> {
    /// Remembers it if the folder isn't locked.
    fn look(&self) {
        if let Ok(folder) = fs::open(self.rt, self.folder) {
            if folder.try_lock().is_ok() {
                self.is_loose.set(true);
            }
            drop(folder);
        }
    }
}

impl<'a, R> Alloc for TestMachine<'a, R> {
    type A = Global;

    fn alloc(&self) -> Global {
        self.alloc
    }
}

impl<'a, R: Eprint> Eprint for TestMachine<'a, R> {
    fn eprint<D: Display + Drop>(&self, value: D) -> io::Result<()> {
        self.rt.eprint(value)
    }

    fn eprintln<D: Display + Drop>(&self, value: D) -> io::Result<()> {
        self.rt.eprintln(value)
    }
}

impl<'a, R: Files<File = File> + Clock> Clock for TestMachine<'a, R> {
    fn monotonic(&self) -> io::Result<Duration> {
        self.look();
        let now = self.rt.monotonic()?;
        match self.next() {
            Reading::Now => Ok(now),
            Reading::Later(seconds) => Ok(now.saturating_add(Duration::from_secs(seconds))),
            Reading::Fails(kind) => Err(io::Error::from(kind)),
        }
    }

    fn since_1970(&self) -> io::Result<Duration> {
        self.rt.since_1970()
    }
}

impl<'a, R: Net<Listener = TcpListener, Stream = TcpStream>> Net for TestMachine<'a, R> {
    type Stream = TcpStream;

    type Listener = TcpListener;

    fn bind(&self, addr: SocketAddr) -> io::Result<TcpListener> {
        self.asked.set(Some(addr));
        match self.listener.try_replace(None) {
            Ok(Some(listener)) => Ok(listener),
            Ok(None) | Err(None) => Err(io::Error::from(ErrorKind::AddrInUse)),
            Err(Some(listener)) => {
                drop(listener);
                Err(io::Error::from(ErrorKind::AddrInUse))
            }
        }
    }

    fn connect(&self, addr: SocketAddr) -> io::Result<TcpStream> {
        self.rt.connect(addr)
    }
}

impl<'a, R: Files<File = File>> Files for TestMachine<'a, R> {
    type File = File;

    type Dir = R::Dir;

    fn open_file(&self, how: &OpenOptions, path: &str) -> io::Result<File> {
        self.rt.open_file(how, path)
    }

    fn open_dir(&self, path: &str) -> io::Result<R::Dir> {
        self.rt.open_dir(path)
    }

    fn metadata(&self, path: &str) -> io::Result<Metadata> {
        self.rt.metadata(path)
    }

    fn symlink_metadata(&self, path: &str) -> io::Result<Metadata> {
        self.rt.symlink_metadata(path)
    }

    fn copy(&self, from: &str, to: &str) -> io::Result<u64> {
        self.rt.copy(from, to)
    }

    fn rename(&self, from: &str, to: &str) -> io::Result<()> {
        self.rt.rename(from, to)
    }

    fn remove_file(&self, path: &str) -> io::Result<()> {
        self.rt.remove_file(path)
    }

    fn create_dir(&self, path: &str) -> io::Result<()> {
        self.rt.create_dir(path)
    }

    fn remove_dir(&self, path: &str) -> io::Result<()> {
        self.rt.remove_dir(path)
    }

    fn remove_dir_all<B: Allocator>(&self, alloc: B, path: &str) -> io::Result<()> {
        self.rt.remove_dir_all(alloc, path)
    }
}
