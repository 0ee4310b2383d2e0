//! The command of a replica.

/// A command line of `replica`. The name and the addresses aren't tested yet.
#[derive(Clone, Copy)]
pub struct ReplicaLine<'a> {
    /// The replica's folder.
    pub state: &'a str,
    /// The farm's name.
    pub farm: &'a str,
    /// The addresses of the readers' ports that it asks, of nodes or of other replicas, with commas
    /// between them.
    pub peers: &'a str,
    /// Where clients come.
    pub http: &'a str,
    /// Where other replicas come to read what is published, if anywhere.
    pub readers: Option<&'a str>,
    /// Where the operator comes, if anywhere.
    pub admin: Option<&'a str>,
    /// The number of pictures that the replica keeps, 1 to 64.
    pub cache: u8,
    /// Whether each event is written on standard error.
    pub log: bool,
}
