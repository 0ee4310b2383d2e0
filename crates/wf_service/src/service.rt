/// Which nodes are served, and where.
#[derive(Clone, Copy)]
pub struct Service<'a> {
    /// The number of nodes: 1 to 64.
    pub nodes: u8,
    /// The port; 0 for any free one.
    pub port: u16,
    /// The number of connections served, one after the other: at most 1,000,000.
    pub requests: u32,
    /// The number of pictures cached for each node: 1 to 64.
    pub cache: u8,
    /// The folder of the nodes' tapes; without one they are in memory.
    pub state: Option<&'a str>,
    /// Whether a line on standard error tells each event.
    pub log: bool,
}
