//! Networks, flows and cuts on the letters of a free group. No call takes memory.
#![tactic(auto)]

mod check;
mod cut;
mod flow;
pub mod laws;
mod least;
mod maximum;
mod net;
mod residual;
mod search;
mod table;

pub use check::check_flow;
pub use cut::{least_cut, reach};
pub use flow::Flow;
pub use least::least_flow;
pub use maximum::{augment, max_flow, max_flow_uncounted};
pub use net::Net;
