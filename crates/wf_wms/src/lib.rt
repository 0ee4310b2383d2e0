//! Answers requests of the Web Map Service (OGC 06-042, version 1.3.0): a query string in, an
//! answer out.
//!
//! An answer is modelled as its kind, its media type and its bytes. `specs/Answer.antt` defines the
//! answer to a query: the exception of the first check that fails, else what the requested
//! operation returns. The query is parsed by the URL Standard's form syntax.
//! `specs/MapRequest.antt` has the checks of GetMap, parameter by parameter and then in order;
//! `specs/Capabilities.antt` and `specs/Exception.antt` define the two XML documents, line by line.
//! The bytes of a picture are defined in wf_picture. A history is the list of published map
//! definitions: update sequence n names the n-th, 0 the empty map.
//!
//! It promises, unless an allocation fails:
//! - [`answer`] returns the defined answer at an update sequence of a history; [`preview`] that of
//!   a history of one map alone
//! - [`describe`] returns the defined answer about one map definition, where GetMap isn't supported
//! - a query has one answer, and it depends on the history only through the map that it describes
//!   or draws ([`each_query_has_one_answer`])
//! - apart from GetMap the answer is what `describe` returns ([`answers_are_descriptions`])
//! - a request that its text alone rejects has one answer at every server, whatever it has
//!   published ([`texts_are_rejected_alike`]); `specs/Rejection.antt` has the checks that look
//!   neither at a map nor at a sequence
//! - [`answer_cached`] returns the same answer by a [`Cache`] of pictures, if each entry is its
//!   key's picture in this history (`specs/CachedPictures.antt`); each still is afterwards, also in
//!   any history that extends this one ([`cached_pictures_outlast_growth`])
//! - which entries there are afterwards, and the counts: a tile is cut out of its picture if that
//!   is kept, which is the most recently used then; one that isn't is drawn and kept, unless an
//!   allocation to keep it fails, in place of the least recently used if the cache is full; nothing
//!   else changes the cache
//!
//! It says nothing about the transport of queries and answers.
#![tactic(auto)]

mod background;
mod bounding_box;
mod cache;
mod capabilities;
mod checks;
mod comparison;
mod crs;
mod description;
mod drawing;
mod entries;
mod exception;
mod format;
mod history;
mod layers;
mod limits;
mod map_request;
mod map_sequence;
mod maps;
mod only_map;
mod plan;
mod query;
mod report;
mod response;
mod service;
mod size;
mod styles;
mod theorem;
mod update_sequence;
mod xml;

pub use cache::Cache;
pub use description::describe;
pub use exception::{Exception, Parameter};
pub use limits::constants_are_the_limits;
pub use report::exception_report;
pub use response::{Answer, Kind};
pub use service::{answer, answer_cached, preview};
pub use theorem::{
    answers_are_descriptions, asked_maps_are_answered_alike, cached_pictures_outlast_growth,
    each_query_has_an_answer, each_query_has_one_answer, sequences_are_rejected_alike,
    texts_are_rejected_alike,
};
