//! The reports of `report` and the replies of `typer` for programs in C, Rust and Python; bindings/ has the declarations. A call keeps and
//! shares no state, so calls may run at the same time.
#![tactic(auto)]

mod copies;
mod flags;
mod lines;
mod reports;
mod status;
