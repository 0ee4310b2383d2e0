//! The commands of nodes in processes of their own.

/// A command line of `init`.
#[derive(Clone, Copy)]
pub struct InitLine<'a> {
    /// The folder to make the node in.
    pub state: &'a str,
    /// The farm's name, not tested yet.
    pub farm: &'a str,
    /// The node's number, 0 to 63.
    pub id: u8,
    /// The number of nodes of the farm, 1 to 64.
    pub nodes: u8,
    /// The file of the tape to begin with; an empty tape if there is none.
    pub from: Option<&'a str>,
    /// Whether the folder joins in the place of a lost one: it doesn't vote before a replacement
    /// was agreed to.
    pub replaces: bool,
}

/// A command line of `node`. The addresses aren't tested yet.
#[derive(Clone, Copy)]
pub struct NodeLine<'a> {
    /// The node's folder.
    pub state: &'a str,
    /// The addresses of all nodes for their peers, with commas between them.
    pub peers: &'a str,
    /// Where clients come.
    pub http: &'a str,
    /// Where peers come, if not at the node's own address among those of the peers.
    pub listen: Option<&'a str>,
    /// Where the operator comes, if anywhere.
    pub admin: Option<&'a str>,
    /// Where replicas come to read what is published, if anywhere.
    pub readers: Option<&'a str>,
    /// The number of pictures that the node keeps, 1 to 64.
    pub cache: u8,
    /// The number of clients at once, 1 to 1,024.
    pub clients: u16,
    /// Whether each event is written on standard error.
    pub log: bool,
    /// Whether the operator may let a new folder take the place of another node's.
    pub may_replace: bool,
}

/// A command line of `clear`.
#[derive(Clone, Copy)]
pub struct ClearLine<'a> {
    /// The node's folder.
    pub state: &'a str,
}

/// A parsed command line about a node in a process of its own.
#[derive(Clone, Copy)]
pub enum NodeCommand<'a> {
    /// Make the node's folder.
    Init(InitLine<'a>),
    /// Serve the node.
    Node(NodeLine<'a>),
    /// End the node's suspension, and forget what it accused others of.
    Clear(ClearLine<'a>),
}
