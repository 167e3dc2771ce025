//! Runs work on the local host.
use crate::host::Host;
use crate::local_host::LocalHost;
use land_desk::service::timer::RequestTimer;
use std::rt::HostRuntime;

/// Work for any host.
pub trait Work {
    /// The result of the work.
    type Outcome;

    /// Does the work on a host.
    fn done_on<H: Host>(self, host: &mut H) -> Self::Outcome;
}

/// Does the work on the local host and returns its result.
pub fn on_local_host<W: Work>(rt: &HostRuntime, work: W) -> W::Outcome {
    let watch = RequestTimer::new(*rt);
    let mut host = LocalHost::new(rt, &watch);
    work.done_on(&mut host)
}
