//! What every layer shares: lines of a source, the budgets of a build, and the endings of a source's run.
#![tactic(auto)]

pub mod budget;
pub mod ending;
pub mod line;

pub use budget::{Budget, BudgetFault, Budgets};
pub use ending::Ending;
pub use line::Line;
