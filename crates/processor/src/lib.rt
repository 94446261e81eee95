// The processor: one unit of the stream, looked at or taken (document 01's "bench").
#![tactic(auto)]

mod taking;
mod viewing;

pub use taking::{TakenUnit, take};
pub use viewing::look;
