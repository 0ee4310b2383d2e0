//! An answer.

use std::marker::Model;
use wf_ballot::Seq;
use wf_canon::Canon;

/// The greatest distance from a voter at which is answered: a voter's own is 0, and a reader's is
/// one more than that of who answers it.
pub const MOST_DISTANCE: u8 = 4;

/// An answer: how far from a voter it comes, what the answerer has published, and the definitions
/// at the sequences after the reader's last one, eight at most.
#[derive(Drop)]
pub struct ReaderAnswer {
    distance: u8,
    published: Seq,
    digest: [u8; 32],
    definitions: Vec<Canon>,
}

impl Model for ReaderAnswer {
    ghost use Rattle.std.specs.Prelude.{◌≤◌, length};
    ghost use Rattle.wf_model.specs.Table.{most_reports};
    ghost use Rattle.wf_reader.specs.ReaderAnswer.{ReaderAnswer, most_distance};

    ghost Value = { ReaderAnswer };

    ghost view = { λ a. record {
      distance = a.distance;
      published = a.published;
      digest = a.digest;
      definitions = a.definitions.items;
    } };

    ghost invariant = { λ a. (a.distance ≤ most_distance) × (length a.definitions.items ≤ most_reports) };
}

impl ReaderAnswer {
    ghost use Rattle.std.specs.Prelude.{◌≡◌, ◌≤◌, length};
    ghost use Rattle.wf_ballot.specs.Sequence.{IsSequence};
    ghost use Rattle.wf_model.specs.Table.{most_reports};
    ghost use Rattle.wf_reader.specs.ReaderAnswer.{most_distance};

    /// The answer of these parts.
    pub fn new(
        distance: u8,
        published: Seq,
        digest: [u8; 32],
        definitions: Vec<Canon>,
    ) -> ReaderAnswer
        requires near { distance ≤ most_distance }
        requires few { length definitions.items ≤ most_reports }
        ensures { result ≡ record {
          distance = distance;
          published = published;
          digest = digest;
          definitions = definitions.items;
        } }
    {
        ReaderAnswer {
            distance,
            published,
            digest,
            definitions,
        }
    }

    /// How far from a voter it comes: 0 of a voter.
    pub fn distance(&self) -> u8
        ensures value { result ≡ self.now.distance }
        ensures near { result ≤ most_distance }
    {
        self.distance
    }

    /// The answerer's last published sequence.
    pub fn published(&self) -> Seq
        ensures value { result ≡ self.now.published }
        ensures in_range { IsSequence result }
    {
        let _ = self.published.number();
        self.published
    }

    /// The digest of the answerer's history up to that.
    pub fn digest(&self) -> [u8; 32]
        ensures { result ≡ self.now.digest }
    {
        self.digest
    }

    /// The definitions at the sequences after the reader's last one, in their order.
    pub fn definitions(&self) -> &[Canon]
        ensures value { result.now ≡ self.now.definitions }
        ensures few { length result.now ≤ most_reports }
    {
        self.definitions.as_slice()
    }

    /// These definitions.
    pub fn into_definitions(self) -> Vec<Canon>
        ensures { result.items ≡ self.definitions }
    {
        let ReaderAnswer { definitions, .. } = self;
        definitions
    }
}
