//! Type inference up to the table: what the parts of a grammar mean by a table of types, and what a table shows of its rules.
#![tactic(auto)]

pub mod grounded;
mod named;
pub mod needs;
pub mod numbered;
pub mod patterns;
pub mod rules;
pub mod same;
pub mod stops;
pub mod tokens;
mod type_levels;
pub mod type_sources;
pub mod values;
pub mod waiting;
