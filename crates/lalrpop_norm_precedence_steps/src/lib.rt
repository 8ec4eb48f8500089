//! Parts of the first passes: each looks at one attribute, at one alternative or those of one rule, or at one item, and at
//! nothing else.
#![tactic(auto)]

pub mod assoc;
pub mod attributes;
pub mod items;
pub mod laws;
pub mod levels;
pub mod occurrences;
pub mod steps;
