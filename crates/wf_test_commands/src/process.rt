//! The whole program in a process of the cases' own.
ghost use Rattle.std.specs.Io.{WritesAtMost};

use std::alloc::{Allocator, Global};
use std::cell::RefCell;
use std::env::FillError;
use std::fmt::Display;
use std::fs::{File, Metadata, OpenOptions};
use std::io::{BufRead, ErrorKind, Lines, Read};
use std::net::{Net, SocketAddr, TcpListener, TcpStream};
use std::process::ExitCode;
use std::rt::{Clock, Env, Files};
use std::time::Duration;
use std::{fs, io};
use wf_commands::run_process;
use wf_test_table::{Answered, CaseInput, Transcript, Unanswered, unescape};

/// Which of its standard streams is broken, or that another program has the folder `new`.
#[derive(Clone, Copy, PartialEq)]
enum Broken {
    Nothing,
    Input,
    Output,
    Errors,
    Held,
}

/// A process whose words are the lines of a text, and whose standard input is these bytes. It has
/// the files of this machine, but finds no name in a folder, or one in the folder `full`; no port
/// is free, no connection is accepted, and its clocks stand at 0.
struct TestProcess<'a, R> {
    files: &'a R,
    alloc: Global,
    words: &'a [u8],
    input: &'a [u8],
    broken: Broken,
    output: RefCell<Transcript>,
    errors: RefCell<Transcript>,
}

impl<'a, R> Alloc for TestProcess<'a, R> {
    type A = Global;

    fn alloc(&self) -> Global {
        self.alloc
    }
}

/// Copies a word to the front of a buffer.
fn fill(word: &[u8], buf: &mut [u8]) -> Result<usize, FillError>
    ensures { WritesAtMost result buf.new }
{
    match buf.get_mut(..word.len()) {
        Some(front) => {
            front.copy_from_slice(word);
            Ok(word.len())
        }
        None => Err(FillError::TooLong),
    }
}

impl<'a, R> Env for TestProcess<'a, R> {
    fn arg(&self, i: usize, buf: &mut [u8]) -> Result<usize, FillError> {
        if i == 0 {
            return fill(b"wfarm", buf);
        }
        if self.words.is_empty() {
            return Err(FillError::NotPresent);
        }
        match self.words.split(|byte| *byte == b'\n').nth(i - 1) {
            Some(word) => fill(word, buf),
            None => Err(FillError::NotPresent),
        }
    }

    fn var(&self, _name: &str, _buf: &mut [u8]) -> Result<usize, FillError> {
        Err(FillError::NotPresent)
    }

    fn var_at(&self, _i: usize, _buf: &mut [u8]) -> Result<usize, FillError> {
        Err(FillError::NotPresent)
    }
}

/// What a process reads.
#[derive(Drop)]
struct Given<'a> {
    rest: &'a [u8],
    is_broken: bool,
}

impl<'a> Read for Given<'a> {
    fn read(&mut self, buf: &mut [u8]) -> io::Result<usize> {
        if self.is_broken {
            return Err(io::Error::from(ErrorKind::ConnectionReset));
        }
        self.rest.read(buf)
    }
}

impl<'a> BufRead for Given<'a> {
    fn fill_buf(&mut self) -> io::Result<&[u8]> {
        if self.is_broken {
            return Err(io::Error::from(ErrorKind::ConnectionReset));
        }
        Ok(self.rest)
    }

    fn consume(&mut self, amount: usize) {
        self.rest = self.rest.get(amount..).unwrap_or(&[]);
    }
}

impl<'a, R> Input for TestProcess<'a, R> {
    type Reader = Given<'a>;

    fn read_line<A: Allocator + Clone>(&self, _buf: &mut String<A>) -> io::Result<usize> {
        Ok(0)
    }

    fn lines<A: Allocator>(&self, alloc: A) -> Lines<Given<'a>, A> {
        self.reader().lines(alloc)
    }

    fn reader(&self) -> Given<'a> {
        Given {
            rest: self.input,
            is_broken: self.broken == Broken::Input,
        }
    }
}

impl<'a, R> TestProcess<'a, R> {
    /// Appends bytes to what was written to a standard stream.
    fn append(&self, stream: &RefCell<Transcript>, name: Broken, bytes: &[u8]) -> io::Result<()> {
        if self.broken == name {
            return Err(io::Error::from(ErrorKind::BrokenPipe));
        }
        match stream.try_borrow_mut() {
            Ok(mut answer) => {
                answer.bytes(bytes);
                Ok(())
            }
            Err(_) => Err(io::Error::from(ErrorKind::Other)),
        }
    }

    /// Appends a value as it is printed, and an end.
    fn append_value<D: Display + Drop>(
        &self,
        stream: &RefCell<Transcript>,
        name: Broken,
        value: D,
        end: &str,
    ) -> io::Result<()> {
        match format!(in self.alloc; "{value}{end}") {
            Ok(text) => {
                let appended = self.append(stream, name, text.as_bytes());
                drop(text);
                appended
            }
            Err(_) => Err(io::Error::from(ErrorKind::OutOfMemory)),
        }
    }
}

impl<'a, R> Print for TestProcess<'a, R> {
    fn print<D: Display + Drop>(&self, value: D) -> io::Result<()> {
        self.append_value(&self.output, Broken::Output, value, "")
    }

    fn println<D: Display + Drop>(&self, value: D) -> io::Result<()> {
        self.append_value(&self.output, Broken::Output, value, "\n")
    }

    fn write_all(&self, bytes: &[u8]) -> io::Result<()> {
        self.append(&self.output, Broken::Output, bytes)
    }
}

impl<'a, R> Eprint for TestProcess<'a, R> {
    fn eprint<D: Display + Drop>(&self, value: D) -> io::Result<()> {
        self.append_value(&self.errors, Broken::Errors, value, "")
    }

    fn eprintln<D: Display + Drop>(&self, value: D) -> io::Result<()> {
        self.append_value(&self.errors, Broken::Errors, value, "\n")
    }
}

impl<'a, R> Clock for TestProcess<'a, R> {
    fn monotonic(&self) -> io::Result<Duration> {
        Ok(Duration::ZERO)
    }

    fn since_1970(&self) -> io::Result<Duration> {
        Ok(Duration::ZERO)
    }
}

impl<'a, R: Files<File = File>> Files for TestProcess<'a, R> {
    type File = File;

    type Dir = &'a [u8];

    fn open_file(&self, how: &OpenOptions, path: &str) -> io::Result<File> {
        self.files.open_file(how, path)
    }

    fn open_dir(&self, path: &str) -> io::Result<&'a [u8]> {
        Ok(if path.starts_with("full") {
            b"keep\0"
        } else {
            b""
        })
    }

    fn metadata(&self, path: &str) -> io::Result<Metadata> {
        self.files.metadata(path)
    }

    fn symlink_metadata(&self, path: &str) -> io::Result<Metadata> {
        self.files.symlink_metadata(path)
    }

    fn copy(&self, from: &str, to: &str) -> io::Result<u64> {
        self.files.copy(from, to)
    }

    fn rename(&self, from: &str, to: &str) -> io::Result<()> {
        self.files.rename(from, to)
    }

    fn remove_file(&self, path: &str) -> io::Result<()> {
        self.files.remove_file(path)
    }

    fn create_dir(&self, path: &str) -> io::Result<()> {
        self.files.create_dir(path)
    }

    fn remove_dir(&self, path: &str) -> io::Result<()> {
        self.files.remove_dir(path)
    }

    fn remove_dir_all<B: Allocator>(&self, alloc: B, path: &str) -> io::Result<()> {
        self.files.remove_dir_all(alloc, path)
    }
}

impl<'a, R> Net for TestProcess<'a, R> {
    type Stream = TcpStream;

    type Listener = TcpListener;

    fn bind(&self, _addr: SocketAddr) -> io::Result<TcpListener> {
        Err(io::Error::from(ErrorKind::AddrInUse))
    }

    fn connect(&self, _addr: SocketAddr) -> io::Result<TcpStream> {
        Err(io::Error::from(ErrorKind::ConnectionRefused))
    }
}

/// Appends an exit status: 0, 1 or 2.
fn write_status(code: ExitCode, answer: &mut Transcript) {
    answer.text("status ");
    answer.line(if code == ExitCode::from(0) {
        "0"
    } else if code == ExitCode::from(1) {
        "1"
    } else if code == ExitCode::from(2) {
        "2"
    } else {
        "above 2"
    });
}

/// Appends what was written to a standard stream, each line after a mark.
fn write_lines(mark: &str, written: Transcript, answer: &mut Transcript) -> Answered {
    let reported_as = match written.finished_text() {
        Ok(bytes) => {
            for line in bytes.split_inclusive(|byte| *byte == b'\n') {
                answer.text(mark);
                answer.bytes(line);
            }
            Ok(())
        }
        Err(_) => Err(Unanswered::Memory),
    };
    drop(written);
    reported_as
}

/// Locks a folder as long as the handle lives.
fn hold<R: Files<File = File>>(files: &R, folder: &str) -> Option<File> {
    let handle = fs::open(files, folder).ok()?;
    match handle.try_lock() {
        Ok(()) => Some(handle),
        Err(_) => None,
    }
}

fn write_process<R: Files<File = File>>(
    files: &R,
    asked: CaseInput<'_>,
    broken: Broken,
    words: &[u8],
    answer: &mut Transcript,
) -> Answered {
    let held = if broken == Broken::Held {
        hold(files, "new")
    } else {
        None
    };
    let process = TestProcess {
        files,
        alloc: asked.alloc,
        words,
        input: asked.input,
        broken,
        output: RefCell::new(Transcript::new(asked.alloc)),
        errors: RefCell::new(Transcript::new(asked.alloc)),
    };
    let code = run_process(&process);
    drop(held);
    let TestProcess {
        files: _,
        alloc: _,
        words: _,
        input: _,
        broken: _,
        output,
        errors,
    } = process;
    write_lines("", output.into_inner(), answer)?;
    write_lines("error: ", errors.into_inner(), answer)?;
    write_status(code, answer);
    Ok(())
}

/// `program BROKEN WORDS`: what a process of the program writes to its standard output, what to its
/// standard error, and its exit status. BROKEN is the standard stream that fails, `input`, `output`
/// or `errors`, `nothing`, or `held` where another program has the folder `new`. WORDS are the
/// command line's, spelled with escapes, with `\n` between. The process has the files of this
/// machine, where each folder but `full` is listed as empty, and no port.
pub(crate) fn program_of<R: Files<File = File>>(
    files: &R,
    mut asked: CaseInput<'_>,
    answer: &mut Transcript,
) -> Answered {
    let broken = match asked.words.word() {
        "nothing" => Broken::Nothing,
        "input" => Broken::Input,
        "output" => Broken::Output,
        "errors" => Broken::Errors,
        "held" => Broken::Held,
        _ => return Err(Unanswered::BadWords),
    };
    let mut words = Transcript::new(asked.alloc);
    let reported_as = match unescape(asked.words.rest(), &mut words) {
        Ok(()) => match words.finished_text() {
            Ok(bytes) => write_process(files, asked, broken, bytes, answer),
            Err(_) => Err(Unanswered::Memory),
        },
        Err(unanswered) => Err(unanswered),
    };
    drop(words);
    reported_as
}
