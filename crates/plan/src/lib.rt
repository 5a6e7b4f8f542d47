// Plans: the six questions that tell a plan's meaning, the copy of a plan's graph, the gateway table, and the turned plan.
#![tactic(auto)]

pub mod asking;
pub mod copying;
pub mod faults;
pub mod gateway;
pub mod graphs;
pub mod laws;
pub mod turning;

pub use asking::Plan;
pub use copying::logics_of;
pub use faults::PlanFault;
pub use gateway::GatewayTable;
pub use graphs::Graph;
pub use turning::Turned;
