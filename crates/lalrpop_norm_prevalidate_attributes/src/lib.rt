//! The faults of attributes that need no names: conditions of no known form (F11), and what is not known on an alternative (F13);
//! and the alternatives that attributes leave in a rule.
#![tactic(auto)]

pub mod alternatives;
pub mod cfg;
pub mod enabled;
