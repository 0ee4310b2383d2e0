//! The resources of a node, and the requests to them.

/// The resource at a path.
#[derive(Clone, Copy, PartialEq, Eq)]
pub enum Resource {
    /// `/wms`: the map service.
    Wms,
    /// `/status`: the status of the node.
    Status,
    /// `/publish`: accepts a map to propose.
    Publish,
}

/// What a request asks for, by its head.
#[derive(Clone, Copy, PartialEq, Eq)]
pub enum RequestedResource {
    /// The map service's answer to the target's query.
    Wms,
    /// The status of the node.
    Status,
    /// To propose the map in the body, which has this many bytes.
    Publish(usize),
}
