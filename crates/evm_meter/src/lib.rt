//! Meters: numbers that follow a solid through its changes.
//!
//! A **meter** measures a solid once, as a whole, and then follows its changes: of each it is handed the parts of the solid round the
//! change, before and after. Content, boundary content and the number of extreme vertices change by what they change there, so a
//! change costs what is near it. A change is prepared, and then committed or abandoned, so that an edit that is refused late leaves
//! each reading as it was.
#![tactic(auto)]

mod failing;
mod meter;
mod stock;

pub use failing::FailingMeter;
pub use meter::{Kind, Meter};
pub use stock::StockMeter;

#[cfg(test)]
mod tests;
