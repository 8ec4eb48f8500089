//! What actions are made by.
use crate::numbered::NumberedTypes;
use std::alloc::Global;

/// The prefix of the names that lowering makes, and the types of the rules.
#[derive(Clone, Copy)]
pub(crate) struct ActionContext<'g> {
    pub(crate) alloc: Global,
    pub(crate) prefix: &'g str,
    pub(crate) types: &'g NumberedTypes<'g>,
}
