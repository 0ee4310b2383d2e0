//! The folder that a process uses.
ghost use Rattle.std.specs.Prelude.{◌≡◌, List, ◌∷◌, IfErr, IfOk, OnErr, OnOk};
ghost use Rattle.wf_store.specs.Call.{Call, made, locked, compared, counted, drawn, seen, measured, read, opened, opened_existing, replaced, unreplaced, failed, failed_at, bytes_of, IsAfter, OnlyReads};
ghost use Rattle.wf_store.specs.Fault.{IsNoFolder, IsWhyUndrawn, IsWhyUnlisted, IsWhyUnlocked, IsWhyUnmade, IsWhyUnopened, IsWhyUnread, IsWhyUnwritten};

use crate::fault::FolderFault;
use crate::file_name::FileName;
use wf_folder::Presence;
use wf_tape::Tape;

/// A folder, as the one process that uses it sees it.
///
/// Model: the calls so far, the latest first, each with what was read or written. A call that only
/// reads changes no file.
pub trait Store {
    /// A file that is opened as a tape.
    type Tape: Tape + Drop;

    /// The calls so far, the latest first.
    ghost calls: { Self → List Call };

    /// Makes the folder, if it isn't there and its parent is; the parent is synced then. Err:
    /// `NoFolder` if the parent isn't there, `Unmade` if the folder can't be made or the parent
    /// can't be synced.
    fn make(&mut self) -> Result<(), FolderFault>
        ensures ok { OnOk result (calls self.new ≡ made ∷ calls self.old) }
        ensures reads { OnlyReads (calls self.old) (calls self.new) }
        ensures err { OnErr result (calls self.new ≡ failed ∷ calls self.old) }
        ensures cause { IfErr result IsWhyUnmade };

    /// Locks the folder as long as this value lives: the folder itself, whatever comes to its path
    /// later. Err: `NoFolder` if it can't be opened, `Held` if another program has locked it.
    fn lock(&mut self) -> Result<(), FolderFault>
        ensures ok { OnOk result (calls self.new ≡ locked ∷ calls self.old) }
        ensures reads { OnlyReads (calls self.old) (calls self.new) }
        ensures err { OnErr result (calls self.new ≡ failed ∷ calls self.old) }
        ensures cause { IfErr result IsWhyUnlocked };

    /// Whether the folder at its path is the one that is locked; false if none is. The only error
    /// is `NoFolder`: there is no folder at the path, or the system doesn't say which.
    fn is_same(&mut self) -> Result<bool, FolderFault>
        ensures ok { IfOk result (λ same. calls self.new ≡ compared same ∷ calls self.old) }
        ensures reads { OnlyReads (calls self.old) (calls self.new) }
        ensures err { OnErr result (calls self.new ≡ failed ∷ calls self.old) }
        ensures cause { IfErr result IsNoFolder };

    /// The number of names in the folder, but for those of second files (`farm.new`), which a
    /// replacement leaves that was cut. Err: `NoFolder` if it can't be opened, `Unlisted` if the
    /// names can't be read.
    fn count_names(&mut self) -> Result<usize, FolderFault>
        ensures ok { IfOk result (λ count. calls self.new ≡ counted count ∷ calls self.old) }
        ensures reads { OnlyReads (calls self.old) (calls self.new) }
        ensures err { OnErr result (calls self.new ≡ failed ∷ calls self.old) }
        ensures cause { IfErr result IsWhyUnlisted };

    /// Draws 128 random bits. The only error is `NoRandomBits`.
    fn draw(&mut self) -> Result<[u8; 16], FolderFault>
        ensures ok { IfOk result (λ bits. calls self.new ≡ drawn bits ∷ calls self.old) }
        ensures reads { OnlyReads (calls self.old) (calls self.new) }
        ensures err { OnErr result (calls self.new ≡ failed ∷ calls self.old) }
        ensures cause { IfErr result IsWhyUndrawn };

    /// Whether a file is there, and has a byte. Err: `Unread` if the system doesn't say, or
    /// `Memory`.
    fn presence(&mut self, file: FileName) -> Result<Presence, FolderFault>
        ensures ok { IfOk result (λ there. calls self.new ≡ seen file there ∷ calls self.old) }
        ensures reads { OnlyReads (calls self.old) (calls self.new) }
        ensures err { OnErr result (calls self.new ≡ failed ∷ calls self.old) }
        ensures cause { IfErr result (IsWhyUnread file) };

    /// The number of bytes of a file, for a log. None if the system doesn't say, or an allocation
    /// fails.
    fn length(&mut self, file: FileName) -> Option<u64>
        ensures all { calls self.new ≡ measured file result ∷ calls self.old }
        ensures reads { OnlyReads (calls self.old) (calls self.new) };

    /// The first bytes of a file, at most `limit`. None if there is no such file. Err: `Unread` or
    /// `Memory`.
    fn read(&mut self, file: FileName, limit: usize) -> Result<Option<Vec<u8>>, FolderFault>
        ensures ok { IfOk result (λ found. calls self.new ≡
            read file (bytes_of found) ∷ calls self.old) }
        ensures reads { OnlyReads (calls self.old) (calls self.new) }
        ensures err { OnErr result (calls self.new ≡ failed ∷ calls self.old) }
        ensures cause { IfErr result (IsWhyUnread file) };

    /// Opens a file as a tape, and makes it if it is absent. Err: `Unopened` or `Memory`; it may
    /// have been made.
    fn open(&mut self, file: FileName) -> Result<Self::Tape, FolderFault>
        ensures ok { OnOk result (calls self.new ≡ opened file ∷ calls self.old) }
        ensures after { IsAfter (calls self.old) (calls self.new) }
        ensures err { OnErr result (calls self.new ≡ failed_at file ∷ calls self.old) }
        ensures cause { IfErr result (IsWhyUnopened file) };

    /// Opens a file as a tape, which has to be there: none is made. Err: `Unopened`, also if it is
    /// absent, or `Memory`.
    fn open_existing(&mut self, file: FileName) -> Result<Self::Tape, FolderFault>
        ensures ok { OnOk result (calls self.new ≡ opened_existing file ∷ calls self.old) }
        ensures after { IsAfter (calls self.old) (calls self.new) }
        ensures err { OnErr result (calls self.new ≡ failed ∷ calls self.old) }
        ensures cause { IfErr result (IsWhyUnopened file) };

    /// Puts bytes in the place of a file, or makes it: whole and synced under a second name first,
    /// which then gets its name, and the folder is synced last. Err: `Unwritten` or `Memory`; the
    /// file from before or the new one is there.
    fn replace(&mut self, file: FileName, bytes: Vec<u8>) -> Result<(), FolderFault>
        ensures ok { OnOk result (calls self.new ≡ replaced file bytes.items ∷ calls self.old) }
        ensures after { IsAfter (calls self.old) (calls self.new) }
        ensures err { OnErr result (calls self.new ≡ unreplaced file bytes.items ∷ calls self.old) }
        ensures cause { IfErr result (IsWhyUnwritten file) };
}
