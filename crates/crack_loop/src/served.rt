//! A desk that reports the traffic of its server.
ghost use Rattle.std.specs.Prelude.{◌≡◌};

use crate::terms::ServerState;
use crack_commands::Traffic;
use crack_plain::Statistics;
use crack_row::{Bound, Command, Layout, Policy, Refusal, Reply};
use crack_service::Host;
use crack_session::Desk;
use std::sync::Wait;

/// A desk that belongs to a server. Each call is that of `desk`, except that `service` returns the server's traffic.
#[derive(Drop)]
pub(crate) struct ReportingDesk<'a, D, Rt: Wait, H: Host> {
    pub(crate) desk: D,
    pub(crate) service: &'a ServerState<'a, Rt, H>,
}

impl<'a, D: Desk, Rt: Wait, H: Host> Desk for ReportingDesk<'a, D, Rt, H> {
    ghost use Rattle.crack_loop.specs.Served.{served_leads};

    ghost tables = { λ s. ⟦<D as Desk>⟧.tables s.desk };

    ghost bounds = { λ s. ⟦<D as Desk>⟧.bounds s.desk };

    ghost splits = { λ s. ⟦<D as Desk>⟧.splits s.desk };

    ghost accepted = { λ s. ⟦<D as Desk>⟧.accepted s.desk };

    ghost leads = { λ s call t. served_leads ⟦<D as Desk>⟧.leads s.desk call t.desk };

    /// Executes the command at the inner desk.
    #[inline(always)]
    fn ask(&mut self, part: u32, command: Command, policy: Policy) -> Result<Reply, Refusal> {
        self.desk.ask(part, command, policy)
    }

    /// Makes the checkpoint at the inner desk.
    fn checkpoint(&mut self, part: u32) -> Result<u64, Refusal> {
        self.desk.checkpoint(part)
    }

    /// The layout that the inner desk returns.
    fn layout(&self, part: u32) -> Result<Layout, Refusal> {
        self.desk.layout(part)
    }

    /// The statistics that the inner desk returns.
    fn statistics(&self, part: u32) -> Result<Statistics, Refusal> {
        self.desk.statistics(part)
    }

    /// The traffic of the server.
    fn service(&self) -> Option<Traffic> {
        Some(self.service.traffic())
    }

    /// The splits of the inner desk.
    fn splits(&self) -> &[Bound] {
        self.desk.splits()
    }

    /// How many commands were accepted through the inner desk.
    fn accepted(&self) -> u64 {
        self.desk.accepted()
    }
}
