//! A folder in memory.

ghost use Rattle.std.specs.Prelude.{◌≡◌, [], ◌∷◌, None, Some, IfOk, OnOk, OnErr, IfErr, option_map, slice_index_or};
ghost use Rattle.wf_disk.specs.Folder.{bytes_in};
ghost use Rattle.wf_disk.specs.MemoryDisk.{left_by, cut_to};
ghost use Rattle.wf_disk.specs.Call.{Open, Make, Append, Sync, Rename, SyncNames, Read, IsLeft, error_of, extended, synced, doubted, changed_at};

use crate::fault::DiskFault;
use crate::file::MemoryFile;
use std::alloc::Global;
use std::marker::Model;
use std::mem;

/// One of the two names of files in a disk's folder.
#[derive(Clone, Copy, Debug, PartialEq, Eq)]
pub enum Name {
    /// The name of the file that is read.
    Own,
    /// The name under which a new content is written, before it takes the own name.
    Second,
}

/// A folder in memory: the two files, and what a power cut may put back under the own name.
pub(crate) struct MemoryFolder {
    own: Option<MemoryFile>,
    second: Option<MemoryFile>,
    // the latest last
    earlier: Vec<Option<MemoryFile>>,
}

impl Drop for MemoryFolder {
    fn drop(self) {
        let MemoryFolder {
            own,
            second,
            earlier,
        } = self;
        drop(own);
        drop(second);
        drop(earlier);
    }
}

impl Model for MemoryFolder {
    ghost use Rattle.std.specs.Prelude.{reverse};
    ghost use Rattle.wf_disk.specs.Folder.{Folder};

    ghost Value = { Folder };

    ghost view = { λ f. record { own = f.own; second = f.second; earlier = reverse f.earlier.items } };
}

impl MemoryFolder {
    /// A folder without files.
    pub(crate) fn new(alloc: Global) -> MemoryFolder
        ensures { result ≡ record { own = None; second = None; earlier = [] } }
    {
        MemoryFolder {
            own: None,
            second: None,
            earlier: Vec::new(alloc),
        }
    }

    /// Makes the own file if it is absent.
    #[tactic(auto, using(crate::proofs::Files::opened_there))]
    pub(crate) fn open(&mut self) -> Result<(), DiskFault>
        ensures { IsLeft Open self.old (error_of result) self.new }
    {
        if self.own.is_some() {
            return Ok(());
        }
        self.earlier.reserve(1)?;
        self.earlier.push_reserved(None);
        self.own = Some(MemoryFile::new(*self.earlier.allocator()));
        Ok(())
    }

    /// Makes the second file, or empties it.
    pub(crate) fn make(&mut self)
        ensures { IsLeft Make self.old None self.new }
    {
        self.second = Some(MemoryFile::new(*self.earlier.allocator()));
    }

    /// Appends bytes to a file.
    pub(crate) fn append(&mut self, name: Name, bytes: &[u8]) -> Result<(), DiskFault>
        ensures { IsLeft (Append name bytes.now) self.old (error_of result) self.new }
    {
        match name {
            Name::Own => append(&mut self.own, bytes),
            Name::Second => append(&mut self.second, bytes),
        }
    }

    /// Syncs a file.
    pub(crate) fn sync(&mut self, name: Name) -> Result<(), DiskFault>
        ensures left { IsLeft (Sync name) self.old (error_of result) self.new }
        ensures device { IfErr result (λ fault. fault ≡ DiskFault.Device) }
    {
        match name {
            Name::Own => sync(&mut self.own),
            Name::Second => sync(&mut self.second),
        }
    }

    /// Makes a file doubtful.
    pub(crate) fn doubt(&mut self, name: Name)
        ensures { self.new ≡ changed_at name doubted self.old }
    {
        match name {
            Name::Own => doubt(&mut self.own),
            Name::Second => doubt(&mut self.second),
        }
    }

    /// Gives the second file the own name.
    pub(crate) fn rename(&mut self) -> Result<(), DiskFault>
        ensures { IsLeft Rename self.old (error_of result) self.new }
    {
        self.earlier.reserve(1)?;
        match self.second.take() {
            None => Err(DiskFault::Device),
            Some(second) => {
                let own = mem::replace(&mut self.own, Some(second));
                self.earlier.push_reserved(own);
                Ok(())
            }
        }
    }

    /// Syncs the names.
    pub(crate) fn sync_names(&mut self)
        ensures { IsLeft SyncNames self.old None self.new }
    {
        self.earlier.clear();
    }

    /// A power cut: under the own name is one of the files that it may put back there, the file
    /// that is there for 0, with all its synced bytes and at most `keep` bytes of the rest. The
    /// second file stays.
    pub(crate) fn cut(&mut self, back: usize, keep: usize)
        ensures { self.new ≡ cut_to back keep self.old }
    {
        self.earlier.reverse();
        put_back(&mut self.own, &mut self.earlier, back);
        self.earlier.clear();
        cut(&mut self.own, keep);
    }

    /// The bytes of the own file.
    pub(crate) fn read(&self, alloc: Global) -> Result<Vec<u8>, DiskFault>
        ensures left { IsLeft Read self.now (error_of result) self.now }
        ensures ok { IfOk result (λ bytes. bytes.items ≡ bytes_in self.now.own) }
    {
        match &self.own {
            None => Err(DiskFault::Device),
            Some(file) => file.read(alloc),
        }
    }
}

/// Appends bytes to a file that may be absent.
fn append(file: &mut Option<MemoryFile>, bytes: &[u8]) -> Result<(), DiskFault>
    ensures ok { OnOk result ((there : _) × (file.old ≡ Some there)) }
    ensures new { OnOk result (file.new ≡ option_map (extended bytes.now) file.old) }
    ensures err { OnErr result (file.new ≡ file.old) }
{
    match file {
        None => Err(DiskFault::Device),
        Some(file) => file.append(bytes),
    }
}

/// Syncs a file that may be absent.
fn sync(file: &mut Option<MemoryFile>) -> Result<(), DiskFault>
    ensures ok { OnOk result ((there : _) × (file.old ≡ Some there)) }
    ensures new { OnOk result (file.new ≡ option_map synced file.old) }
    ensures err { OnErr result (file.new ≡ option_map doubted file.old) }
    ensures device { IfErr result (λ fault. fault ≡ DiskFault.Device) }
{
    match file {
        None => Err(DiskFault::Device),
        Some(file) => {
            file.sync();
            Ok(())
        }
    }
}

/// Puts back the file of this number: 0 is the one that is there, the others come after it. It
/// stays where there are fewer.
#[tactic(auto, using(crate::proofs::Files::put_back, crate::proofs::Files::stays_back))]
fn put_back(own: &mut Option<MemoryFile>, others: &mut Vec<Option<MemoryFile>>, back: usize)
    ensures { own.new ≡ slice_index_or (own.old ∷ others.old.items) back own.old }
{
    if back == 0 {
        return;
    }
    if back > others.len() {
        return;
    }
    *own = others.swap_remove(back - 1);
}

/// Cuts a file that may be absent.
fn cut(file: &mut Option<MemoryFile>, keep: usize)
    ensures { file.new ≡ option_map (left_by keep) file.old }
{
    if let Some(file) = file {
        file.cut(keep);
    }
}

/// Makes a file doubtful, if it is there.
fn doubt(file: &mut Option<MemoryFile>)
    ensures { file.new ≡ option_map doubted file.old }
{
    if let Some(file) = file {
        file.doubt();
    }
}
