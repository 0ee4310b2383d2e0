//! The operators and the readers of a process, who only read.
ghost use Rattle.std.specs.Prelude.{◌≡◌, [], IfOk};
ghost use Rattle.wf_readers_port.specs.ReadersPort.{exchanges_of};

use crate::socket::{OPERATOR, READER};
use std::alloc::{AllocError, Global};
use std::time::Clock;
use wf_operator::{Behind, StartTime};
use wf_readers_port::ReadersPort;
use wf_sockets::Network;
use wf_visitors::{Context, Server, Visitors};

/// The most operators at once.
const OPERATORS: usize = 8;

/// The most readers at once.
const READERS: usize = 64;

/// The operators and the readers of a process, who only read, since when they can come, and since
/// when the process is behind.
#[derive(Drop)]
pub struct Desk<N: Network> {
    pub operators: Visitors<N>,
    pub readers: ReadersPort<N>,
    pub started: StartTime,
    pub behind: Behind,
}

impl<N: Network> Desk<N> {
    /// Nobody has come yet. The only error is allocation failure.
    pub(crate) fn new(
        alloc: Global,
        admin: Option<N::Listener>,
        readers: Option<N::Listener>,
        started: StartTime,
    ) -> Result<Self, AllocError>
        ensures { IfOk result (λ desk. exchanges_of desk.readers ≡ []) }
    {
        let operators = Visitors::new(alloc, OPERATORS, admin, OPERATOR)?;
        let readers = ReadersPort::new(alloc, READERS, readers, READER)?;
        Ok(Desk {
            operators,
            readers,
            started,
            behind: Behind::default(),
        })
    }

    /// Accepts operators and readers, and ends the phases whose time is over.
    pub fn tick<R: Clock + Eprint + AllocGlobal>(&mut self, context: &Context<'_, '_, R, N>)
        ensures { exchanges_of self.new.readers ≡ exchanges_of self.old.readers }
    {
        self.operators.accept(context);
        self.operators.tick(context.time);
        self.readers.accept(context);
        self.readers.tick(context.time);
    }

    /// Answers requests of operators that are whole, a bounded number of them.
    pub fn answer_operators<R: Clock + Eprint + AllocGlobal, S: Server>(
        &mut self,
        context: &Context<'_, '_, R, N>,
        server: &mut S,
    )
        ensures { self.new.readers ≡ self.old.readers }
    {
        serve_operators(&mut self.operators, context, server);
    }
}

/// Answers requests of operators that are whole, a bounded number of them.
fn serve_operators<R: Clock + Eprint + AllocGlobal, S: Server, N: Network>(
    operators: &mut Visitors<N>,
    context: &Context<'_, '_, R, N>,
    server: &mut S,
) {
    for _ in 0..OPERATORS {
        let Some(index) = operators.next() else {
            return;
        };
        let _ = operators.serve(context, server, index);
    }
}
