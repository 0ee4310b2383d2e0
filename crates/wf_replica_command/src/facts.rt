//! What a replica tells its operator.

use std::alloc::AllocError;
use std::rt::Files;
use wf_ballot::Seq;
use wf_digest::Digests;
use wf_learner::History;
use wf_operator::{
    Health, Operated, PictureCounts, StartTime, gauge, push_open, push_requests, push_sequences,
    push_tape_bytes,
};
use wf_store::file_length;
use wf_visitors::Counts;

/// What a replica tells its operator.
#[derive(Drop)]
pub(crate) struct ReplicaFacts<'a, R> {
    pub(crate) rt: &'a R,
    pub(crate) started: StartTime,
    pub(crate) history: &'a History,
    pub(crate) digests: &'a Digests,
    pub(crate) is_connected: bool,
    pub(crate) distance: u8,
    pub(crate) received: u16,
    pub(crate) is_new: bool,
    pub(crate) requests: &'a Counts,
    pub(crate) pictures: PictureCounts,
    pub(crate) unkept: u64,
    pub(crate) tape: &'a str,
    pub(crate) has_tape: bool,
    pub(crate) reader_differs: Option<u16>,
    pub(crate) is_behind: bool,
    pub(crate) clients: usize,
    pub(crate) readers: usize,
}

impl<'a, R: Files> Operated for ReplicaFacts<'a, R> {
    fn history(&self) -> &History {
        self.history
    }

    fn digest_at(&self, number: u16) -> Option<[u8; 32]> {
        let seq = Seq::new(number)?;
        self.digests.at(seq)
    }

    fn health(&self) -> Health {
        match self.reader_differs {
            Some(sequence) => Health::ReaderDiffers { sequence },
            None => Health::Fine,
        }
    }

    fn hears_majority(&self) -> Option<bool> {
        None
    }

    fn later(&self) -> Option<u16> {
        // one that began with no map isn't ready before it has what a source has
        if self.is_behind || self.is_new {
            Some(self.received)
        } else {
            None
        }
    }

    fn push_metrics(&self, text: &mut String) -> Result<(), AllocError> {
        let published = self.history.published().number();
        self.started.push_to(text)?;
        push_sequences(text, published, self.received.max(published))?;
        push_replica(text, self)?;
        push_open(text, self.clients as u64, self.readers as u64)?;
        push_requests(text, self.requests)?;
        self.pictures.push_to(text, self.unkept)?;
        push_tape_bytes(text, file_length(self.rt, self.tape))
    }
}

/// Appends how the replica stands to the farm, and what is wrong with it.
fn push_replica<R>(text: &mut String, facts: &ReplicaFacts<'_, R>) -> Result<(), AllocError> {
    gauge(
        text,
        "wfarm_sources_connected",
        "1 where a node of --peers is connected",
        facts.is_connected as u64,
    )?;
    gauge(
        text,
        "wfarm_distance",
        "Replicas between this one and a node, itself counted",
        facts.distance as u64,
    )?;
    gauge(
        text,
        "wfarm_tape_failed",
        "1 where the tape has failed",
        !facts.has_tape as u64,
    )?;
    gauge(
        text,
        "wfarm_history_differs",
        "1 where the history of a peer or a reader is another one",
        facts.reader_differs.is_some() as u64,
    )
}
