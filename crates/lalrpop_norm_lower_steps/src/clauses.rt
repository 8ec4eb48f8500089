//! `where` clauses under their `for<..>`.
ghost use Rattle.std.specs.Prelude.{◌≡◌, IfOk};
ghost use Rattle.lalrpop_norm_tree_parts.specs.Reprs.{lowered_where_clause_view};
ghost use Rattle.lalrpop_norm_lower_steps.specs.Clauses.{under};

use lalrpop_norm_repr::grammar::repr::WhereClause;
use lalrpop_norm_tree::grammar::parse_tree::{NoMemory, TypeParameter};
use lalrpop_norm_tree_parts::names::copy::copy_type_parameters;
use std::alloc::Global;

/// The clause under its `for<..>`, if there is one. The only error is a failed allocation.
pub fn under(
    alloc: Global,
    forall: &Vec<TypeParameter>,
    clause: WhereClause,
) -> Result<WhereClause, NoMemory>
    ensures { IfOk result (λ c. lowered_where_clause_view c ≡ under forall.now.items (lowered_where_clause_view clause)) }
{
    if forall.is_empty() {
        return Ok(clause);
    }
    let binder = copy_type_parameters(forall)?;
    let clause = Box::new(alloc, clause)?;
    Ok(WhereClause::Forall { binder, clause })
}
