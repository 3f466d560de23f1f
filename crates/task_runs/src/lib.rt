//! Tasks of `task_start` and of `greatest_number` on several harts.
#![tactic(auto)]

mod numbers;
mod spaces;
#[cfg(test)]
mod tests;

pub use numbers::greatest_on;
pub use spaces::count_on;
