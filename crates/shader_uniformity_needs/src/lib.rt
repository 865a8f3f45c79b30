//! Violated needs: each statement or expression that needs uniform control flow and that only some invocations may reach.
#![tactic(auto)]

mod demands;
pub mod followers;
mod locations;
mod needs;
mod notes;
mod search;

pub use demands::Demands;
pub use locations::demands_at;
pub use needs::{Need, NeedKind, Pass, Violation};
pub use search::find_violations;
