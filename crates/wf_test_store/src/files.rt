//! Files of a folder in memory, before and after its power is cut.

use std::alloc::{AllocError, Global};
use wf_folder::Presence;
use wf_store::{FileName, FolderFault, MemoryFolder, MemoryStore, Store, path_in};
use wf_tape::Tape;
use wf_test_table::{Answered, CaseInput, CaseWords, Transcript, Unanswered};

/// The tape of the folder's only node.
pub(crate) const NODE_TAPE: FileName = FileName::NodeTape(0);

/// The files that are written, and their bytes.
const WRITTEN: [(FileName, &str); 4] = [
    (FileName::Farm, "whose it is"),
    (FileName::Heard, "what was heard"),
    (FileName::Joins, "how far it is"),
    (FileName::Replaced, ""),
];

/// Puts bytes in the place of a file. Whether that succeeds.
pub(crate) fn replace(
    alloc: Global,
    folder: &MemoryFolder,
    file: FileName,
    bytes: &[u8],
) -> Result<bool, AllocError> {
    let bytes = bytes.to_vec(alloc)?;
    let mut store = MemoryStore::new(folder);
    let is_ok = store.replace(file, bytes).is_ok();
    drop(store);
    Ok(is_ok)
}

/// Whether a file is there, and has a byte.
pub(crate) fn presence(folder: &MemoryFolder, file: FileName) -> Result<Presence, FolderFault> {
    let mut store = MemoryStore::new(folder);
    let found = store.presence(file);
    drop(store);
    found
}

/// Appends the name of a file and whether it is there.
fn write_presence(folder: &MemoryFolder, file: FileName, answer: &mut Transcript) {
    answer.value(file);
    answer.line(match presence(folder, file) {
        Ok(Presence::Absent) => ": absent",
        Ok(Presence::Empty) => ": empty",
        Ok(Presence::Written) => ": written",
        Err(_) => ": unread",
    });
}

/// Appends the bytes of a file, in quotes.
fn write_bytes(folder: &MemoryFolder, file: FileName, answer: &mut Transcript) {
    let mut store = MemoryStore::new(folder);
    let found = store.read(file, 100);
    drop(store);
    match found {
        Ok(Some(bytes)) => {
            answer.text("\"");
            answer.bytes(bytes.as_slice());
            answer.line("\"");
            drop(bytes);
        }
        Ok(None) => answer.line("none"),
        Err(_) => answer.line("unread"),
    }
}

/// Appends the number of the folder's files.
fn write_count(folder: &MemoryFolder, answer: &mut Transcript) {
    let mut store = MemoryStore::new(folder);
    let count = store.count_names();
    drop(store);
    answer.text("files: ");
    match count {
        Ok(count) => answer.count(count),
        Err(_) => answer.text("unread"),
    }
    answer.line("");
}

/// `replaced`: a file has the bytes `old`, and `new` are put in their place.
pub(crate) fn replaced(asked: CaseInput<'_>, answer: &mut Transcript) -> Answered {
    let mut words = CaseWords::of(asked.input)?;
    let call = words.count()?;
    let kept = words.count()?;
    let back = words.count()?;
    let folder = MemoryFolder::new(asked.alloc, 1)?;
    let done = replace_twice(asked.alloc, &folder, call, kept, answer);
    folder.cut(back, 0);
    write_bytes(&folder, FileName::Farm, answer);
    drop(folder);
    Ok(done?)
}

/// Replaces the file `farm` twice, the second time where a call fails.
fn replace_twice(
    alloc: Global,
    folder: &MemoryFolder,
    call: usize,
    kept: usize,
    answer: &mut Transcript,
) -> Result<(), AllocError> {
    replace(alloc, folder, FileName::Farm, b"old")?;
    folder.set_failure(call, kept);
    let is_done = replace(alloc, folder, FileName::Farm, b"new")?;
    answer.text(if is_done { "done, " } else { "failed, " });
    if folder.will_fail() {
        answer.text("the call isn't made, ");
    }
    Ok(())
}

/// The file of a name.
fn file_of(name: &str) -> Result<FileName, Unanswered> {
    match name {
        "farm" => Ok(FileName::Farm),
        "heard" => Ok(FileName::Heard),
        "joins" => Ok(FileName::Joins),
        "replaced" => Ok(FileName::Replaced),
        "tape" => Ok(NODE_TAPE),
        _ => Err(Unanswered::BadWords),
    }
}

/// `path`: where a file is.
pub(crate) fn path(asked: CaseInput<'_>, answer: &mut Transcript) -> Answered {
    let file = file_of(asked.text()?)?;
    let path = path_in(asked.alloc, "folder", file)?;
    answer.line(path.as_str());
    drop(path);
    Ok(())
}

/// `written`: each file is replaced, and keeps its bytes.
pub(crate) fn written(asked: CaseInput<'_>, answer: &mut Transcript) -> Answered {
    let folder = MemoryFolder::new(asked.alloc, 1)?;
    for (file, bytes) in WRITTEN {
        write_presence(&folder, file, answer);
        if replace(asked.alloc, &folder, file, bytes.as_bytes()).is_err() {
            answer.cut();
        }
    }
    write_count(&folder, answer);
    folder.cut(1, 0);
    for (file, _) in WRITTEN {
        answer.value(file);
        answer.text(": ");
        write_bytes(&folder, file, answer);
    }
    drop(folder);
    Ok(())
}

/// Appends who asks for a lock, and what it gets; then, whether the folder at the path is the one
/// that it has locked.
fn write_lock(who: &str, store: &mut MemoryStore<'_>, answer: &mut Transcript) {
    answer.text(who);
    answer.text(match store.lock() {
        Ok(()) => ": locked, ",
        Err(FolderFault::Held) => ": held, ",
        Err(_) => ": failed, ",
    });
    answer.line(match store.is_same() {
        Ok(true) => "its folder",
        Ok(false) => "not its folder",
        Err(_) => "no folder",
    });
}

/// `locked`: two processes on one folder.
pub(crate) fn locked(asked: CaseInput<'_>, answer: &mut Transcript) -> Answered {
    let folder = MemoryFolder::new(asked.alloc, 1)?;
    let mut first = MemoryStore::new(&folder);
    let mut second = MemoryStore::new(&folder);
    write_lock("first", &mut first, answer);
    write_lock("second", &mut second, answer);
    drop(first);
    write_lock("second", &mut second, answer);
    drop(second);
    drop(folder);
    Ok(())
}

/// Opens a tape that may be absent, or has to be there. Whether that succeeds.
fn opens(folder: &MemoryFolder, file: FileName, has_to_be_there: bool) -> bool {
    let mut store = MemoryStore::new(folder);
    let opened = if has_to_be_there {
        store.open_existing(file)
    } else {
        store.open(file)
    };
    drop(store);
    let is_ok = opened.is_ok();
    drop(opened);
    is_ok
}

/// Appends whether a tape could be opened, and what it is then.
fn write_opened(is_open: bool, folder: &MemoryFolder, answer: &mut Transcript) {
    answer.text(if is_open { "opened, " } else { "not opened, " });
    write_presence(folder, NODE_TAPE, answer);
}

/// `made_tape`: a tape is made where it is opened; not that of another node, nor by who wants one
/// that is there.
pub(crate) fn made_tape(asked: CaseInput<'_>, answer: &mut Transcript) -> Answered {
    let folder = MemoryFolder::new(asked.alloc, 1)?;
    write_opened(opens(&folder, NODE_TAPE, true), &folder, answer);
    write_opened(
        opens(&folder, FileName::NodeTape(1), false),
        &folder,
        answer,
    );
    write_count(&folder, answer);
    write_opened(opens(&folder, NODE_TAPE, false), &folder, answer);
    append(&folder, answer);
    folder.cut(0, 4);
    write_bytes(&folder, NODE_TAPE, answer);
    write_opened(opens(&folder, NODE_TAPE, true), &folder, answer);
    write_count(&folder, answer);
    drop(folder);
    Ok(())
}

/// Appends some bytes to the tape, which aren't synced.
fn append(folder: &MemoryFolder, answer: &mut Transcript) {
    let mut store = MemoryStore::new(folder);
    let opened = store.open(NODE_TAPE);
    drop(store);
    match opened {
        Ok(mut tape) => {
            if tape.append(b"some bytes").is_err() {
                answer.line("not appended");
            }
            drop(tape);
        }
        Err(_) => answer.line("not opened"),
    }
}
