//! TCP connections to a port of this host, many of them open at the same time, by one loop over `epoll`.
//!
//! A socket (`socket`) has its readiness and its timeouts. A connection whose last reply was sent lingers
//! (`lingering`). The port (`port`) listens, waits for events, and gives turns to sockets.
#![tactic(auto)]

mod lingering;
pub mod port;
pub mod socket;
