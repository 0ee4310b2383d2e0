//! Map definitions with their canonical texts.

ghost use Rattle.std.specs.Prelude.{◌≡◌, ◌<◌, ◌≤◌, true, length, if◌then◌else◌, IfOk, IfErr, IfSome, OnOk, OnSome};
ghost use Rattle.std.specs.Str.{is_utf8};
ghost use Rattle.wf_def.specs.Limits.{IsWithinLimits};
ghost use Rattle.wf_mapfile.specs.Meaning.{Means};
ghost use Rattle.wf_block.specs.ReadContract.{is_memory};
ghost use Rattle.wf_spelling.specs.Canon.{canon, most_canon_bytes, IsCanon, IsCauseOf};
ghost use Rattle.wf_canon.specs.CanonFault.{IsWhyRejected, reject_again};

use std::alloc::{AllocError, Global};
use std::marker::Model;
use std::rc::Rc;
use wf_def::MapDef;
use wf_mapfile::{MapFault, read};
use wf_spelling::{CanonFault, MOST_CANON_BYTES, scan_text, text_of};

/// What the copies of a canonical text share.
#[derive(Drop)]
struct Written {
    text: Vec<u8>,
    def: MapDef,
}

/// A map definition with its canonical text, which has at most [`MOST_CANON_BYTES`] bytes. Copies
/// share both.
pub struct Canon {
    shared: Rc<Written>,
}

// Written by hand: callers then prove one call where they drop a definition, not one for each part.
impl Drop for Canon {
    fn drop(self) {
        let Canon { shared } = self;
        drop(shared);
    }
}

impl Model for Canon {
    ghost use Rattle.wf_def.specs.Definition.{Definition};

    ghost Value = { Definition };

    ghost use Rattle.wf_spelling.specs.Canon.{IsCanon};

    ghost view = { λ c. c.shared.value.def };

    ghost invariant = { λ c. IsCanon c.shared.value.text.items c.shared.value.def };
}

impl Canon {
    /// The canonical text of a definition, and a copy of the definition (`TooBig` iff the text is
    /// over [`MOST_CANON_BYTES`]).
    pub fn of(alloc: Global, def: &MapDef) -> Result<Self, CanonFault>
        ensures value { IfOk result (λ canonical. canonical ≡ def.now) }
        ensures short { OnOk result (length (canon def.now) ≤ most_canon_bytes) }
        ensures cause { IfErr result (λ fault. IsCauseOf fault def.now) }
    {
        let text = text_of(alloc, def, 0)?;
        let own = def.clone()?;
        Ok(share(alloc, text, own)?)
    }

    /// The canonical text of a definition, and the definition itself, which isn't copied (`TooBig`
    /// iff the text is over [`MOST_CANON_BYTES`]).
    pub fn from_map(alloc: Global, def: MapDef) -> Result<Self, CanonFault>
        ensures value { IfOk result (λ canonical. canonical ≡ def) }
        ensures short { OnOk result (length (canon def) ≤ most_canon_bytes) }
        ensures cause { IfErr result (λ fault. IsCauseOf fault def) }
    {
        let text = text_of(alloc, &def, 0)?;
        Ok(share(alloc, text, def)?)
    }

    /// The definition that a canonical text means. More than [`MOST_CANON_BYTES`] are `TooBig`,
    /// which is checked first; other bytes that aren't a canonical text are `NotCanonical`, even if
    /// they are a mapfile.
    pub fn from_bytes(alloc: Global, bytes: &[u8]) -> Result<Self, CanonFault>
        ensures too_big { most_canon_bytes < length bytes.now → result ≡ Err CanonFault.TooBig }
        ensures value { IfOk result (λ canonical. canon canonical ≡ bytes.now) }
        ensures within { IfOk result IsWithinLimits }
        ensures cause { IfErr result (λ fault. IsWhyRejected fault bytes.now) }
    {
        if bytes.len() > MOST_CANON_BYTES {
            return Err(CanonFault::TooBig);
        }
        // The quick reader accepts canonical texts alone. What it leaves is decided by reading and
        // writing again.
        if let Some(canonical) = Self::scan_bytes(alloc, bytes) {
            return Ok(canonical);
        }
        let def = definition_of(alloc, bytes)?;
        let text = same_text(alloc, &def, bytes)?;
        Ok(share(alloc, text, def)?)
    }

    /// The definition of a canonical text, if the quick reader accepts the text. `None` says
    /// nothing of the bytes: they may still be a canonical text or any other mapfile, or an
    /// allocation failed.
    #[tactic(auto, using(crate::proofs::MeaningTheorem::scanned_means))]
    pub fn scan_bytes(alloc: Global, bytes: &[u8]) -> Option<Self>
        ensures text { IfSome result (λ canonical. canon canonical ≡ bytes.now) }
        ensures short { OnSome result (length bytes.now ≤ most_canon_bytes) }
        ensures within { IfSome result IsWithinLimits }
        ensures means { IfSome result (Means bytes.now) }
    {
        if bytes.len() > MOST_CANON_BYTES {
            return None;
        }
        match scan_text(alloc, bytes) {
            Some(def) => of_scanned(alloc, bytes, def),
            None => None,
        }
    }

    /// A copy, for a message or a history that owns its value. It shares the text and the
    /// definition, so it allocates nothing. The only error is that copies can't be counted any
    /// further, at 2^64 - 1 of them.
    pub fn copy(&self) -> Result<Self, AllocError>
        ensures { IfOk result (λ copy. copy ≡ self.now) }
    {
        Ok(Canon {
            shared: self.shared.clone()?,
        })
    }

    /// The text, in UTF-8.
    pub fn text(&self) -> &[u8]
        ensures value { result.now ≡ canon self.now }
        ensures short { length result.now ≤ most_canon_bytes }
        ensures within { IsWithinLimits self.now }
    {
        self.shared.text.as_slice()
    }

    /// The definition.
    pub fn def(&self) -> &MapDef
        ensures value { result.now ≡ self.now }
        ensures within { IsWithinLimits self.now }
    {
        &self.shared.def
    }
}

/// Puts a canonical text and its definition where copies can share them.
fn share(alloc: Global, text: Vec<u8>, def: MapDef) -> Result<Canon, AllocError>
    requires { IsCanon text.items def }
    ensures { IfOk result (λ canonical. canonical ≡ def) }
{
    let shared = Rc::new(alloc, Written { text, def })?;
    Ok(Canon { shared })
}

/// A canonical text that was scanned, with its definition; `None` if an allocation fails.
fn of_scanned(alloc: Global, bytes: &[u8], def: MapDef) -> Option<Canon>
    requires { IsCanon bytes.now def }
    ensures { IfSome result (λ canonical. canonical ≡ def) }
{
    match copy_bytes(alloc, bytes) {
        Ok(text) => match share(alloc, text, def) {
            Ok(canonical) => Some(canonical),
            Err(AllocError) => None,
        },
        Err(AllocError) => {
            drop(def);
            None
        }
    }
}

/// A copy of the bytes, in exactly as much memory.
fn copy_bytes(alloc: Global, bytes: &[u8]) -> Result<Vec<u8>, AllocError>
    ensures { IfOk result (λ text. text.items ≡ bytes.now) }
{
    let mut text = Vec::with_capacity(alloc, bytes.len())?;
    text.extend_from_slice(bytes)?;
    Ok(text)
}

/// The canonical text of the definition, if it is these bytes.
fn same_text(alloc: Global, def: &MapDef, bytes: &[u8]) -> Result<Vec<u8>, CanonFault>
    requires short { length bytes.now ≤ most_canon_bytes }
    requires meant { Means bytes.now def.now }
    ensures written { IfOk result (λ text. text.items ≡ canon def.now) }
    ensures same { IfOk result (λ text. text.items ≡ bytes.now) }
    ensures within { IsWithinLimits def.now }
    ensures cause { IfErr result (λ fault. IsWhyRejected fault bytes.now) }
{
    match text_of(alloc, def, bytes.len()) {
        Ok(text) => {
            if text.as_slice() != bytes {
                return Err(CanonFault::NotCanonical);
            }
            Ok(text)
        }
        Err(fault) => Err(reject_again(fault)),
    }
}

/// The error for bytes within the limit, given an error of writing: if the text is over the limit,
/// the bytes aren't that text.
fn reject_again(fault: CanonFault) -> CanonFault
    ensures { result ≡ reject_again fault }
{
    match fault {
        CanonFault::Memory => CanonFault::Memory,
        CanonFault::TooBig | CanonFault::NotCanonical => CanonFault::NotCanonical,
    }
}

/// The definition that bytes mean, canonical or not. Bytes that mean nothing aren't a canonical
/// text.
fn definition_of(alloc: Global, bytes: &[u8]) -> Result<MapDef, CanonFault>
    requires { length bytes.now ≤ most_canon_bytes }
    ensures meant { IfOk result (λ def. Means bytes.now def) }
    ensures utf8 { OnOk result (is_utf8 bytes.now ≡ true) }
    ensures cause { IfErr result (λ fault. IsWhyRejected fault bytes.now) }
{
    match read(alloc, bytes) {
        Ok(def) => Ok(def),
        Err(fault) => Err(rejection_of(fault)),
    }
}

/// The error for a canonical text, given the reader's error.
fn rejection_of(fault: MapFault) -> CanonFault
    ensures { result ≡ (if is_memory fault then CanonFault.Memory else CanonFault.NotCanonical) }
{
    match fault {
        MapFault::Memory => CanonFault::Memory,
        _ => CanonFault::NotCanonical,
    }
}
