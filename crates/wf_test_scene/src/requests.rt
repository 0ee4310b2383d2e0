//! The requests of clients, as bytes.

use crate::names::FARM;
use std::alloc::{AllocError, Global};
use wf_ballot::Seq;
use wf_folder::FarmName;
use wf_reader::{Question, encode_question};

/// A request for what has become of a proposal.
pub const STATUS: &str = "GET /status HTTP/1.1\r\nHost: farm\r\n\r\n";

/// A request for the capabilities.
pub const CAPABILITIES: &str =
    "GET /wms?SERVICE=WMS&REQUEST=GetCapabilities HTTP/1.1\r\nHost: farm\r\n\r\n";

/// An operator's question whether the node is ready.
pub const READINESS: &str = "GET /readyz HTTP/1.1\r\nHost: farm\r\n\r\n";

/// The random bits of the folder that joins, which are its mark.
pub const JOINER_BITS: [u8; 16] = [0x55; 16];

/// An operator's word to the folder that joins: its replacement of the node begins.
pub const BEGIN: &str =
    "POST /replace/begin?count=1 HTTP/1.1\r\nHost: farm\r\nContent-Length: 0\r\n\r\n";

/// An operator's word to another node: to agree to that replacement of node 0.
pub const AGREE: &str =
    "POST /replace/agree?node=0&count=1&mark=55555555555555555555555555555555&force HTTP/1.1\r\nHost: farm\r\nContent-Length: 0\r\n\r\n";

/// An operator's request for the metrics.
pub const METRICS: &str = "GET /metrics HTTP/1.1\r\nHost: farm\r\n\r\n";

/// The bytes of a text.
pub fn bytes_of(alloc: Global, text: &str) -> Result<Vec<u8>, AllocError> {
    text.as_bytes().to_vec(alloc)
}

/// A request to publish the map of this number: its name and the colour of its picture are of that
/// number.
pub fn publish_request(alloc: Global, map: u32) -> Result<Vec<u8>, AllocError> {
    let [_, red, green, blue] = map.to_be_bytes();
    let body = format!(in alloc;
        "MAP NAME \"m{map}\" EXTENT 0 0 4 4 PROJECTION \"init=epsg:3857\" END\nWEB METADATA \"wms_title\" \"m{map}\" \"wms_onlineresource\" \"http://localhost/wms?\" END END\nLAYER NAME it TYPE POLYGON CLASS STYLE COLOR {red} {green} {blue} END END\nFEATURE POINTS -9 -9 9 -9 9 9 -9 9 END END END END\n"
    )?;
    let request = with_body(alloc, body.as_str());
    drop(body);
    request
}

/// A request to publish this text.
fn with_body(alloc: Global, body: &str) -> Result<Vec<u8>, AllocError> {
    let length = body.len();
    let request = format!(in alloc;
        "POST /publish HTTP/1.1\r\nHost: farm\r\nContent-Length: {length}\r\n\r\n{body}"
    )?;
    let bytes = bytes_of(alloc, request.as_str());
    drop(request);
    bytes
}

/// A request for the picture of the map at a sequence, of so many pixels each way.
pub fn picture_request(alloc: Global, sequence: u16, side: u32) -> Result<Vec<u8>, AllocError> {
    let request = format!(in alloc;
        "GET /wms?VERSION=1.3.0&REQUEST=GetMap&LAYERS=it&STYLES=&CRS=EPSG:3857&BBOX=0,0,4,4&WIDTH={side}&HEIGHT={side}&FORMAT=image/x-portable-pixmap&MAPSEQ={sequence} HTTP/1.1\r\nHost: farm\r\n\r\n"
    )?;
    let bytes = bytes_of(alloc, request.as_str());
    drop(request);
    bytes
}

/// A reader's question, which has published so far, with this digest of it.
pub fn question(alloc: Global, published: u16, digest: [u8; 32]) -> Result<Vec<u8>, AllocError> {
    let mut bytes = Vec::new(alloc);
    if let (Some(farm), Some(published)) = (FarmName::new(FARM.as_bytes()), Seq::new(published)) {
        let question = Question {
            farm,
            published,
            digest,
        };
        encode_question(&question, &mut bytes)?;
    }
    Ok(bytes)
}
