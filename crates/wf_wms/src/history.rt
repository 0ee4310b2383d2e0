//! The maps of a history.

use crate::maps::MapSource;
use wf_ballot::Seq;
use wf_def::MapDef;
use wf_learner::History;

impl MapSource for History {
    ghost definitions = { λ history. history.definitions };

    fn published_map(&self, seq: u16) -> &MapDef {
        // By the history's contract its length is an update sequence.
        let _ = self.published();
        let seq = Seq::new(seq).unwrap();
        self.get(seq).unwrap()
    }
}
