//! Requests with an injected allocation failure. Each test prepares its register, and prints a line before
//! the request and one after it. So `.ci/oom-requests` can fail only the allocations of the request: the
//! first one, then the second, until none fails. The request gets its own reply or error 501, or the service
//! stops because it is out of memory. Without its own reply nothing has changed, and the request gets that
//! reply if it is sent again.

mod growing;
pub mod requests;
