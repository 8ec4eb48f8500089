//! Declared types that mean the same whatever the table of types has.
ghost use Rattle.std.specs.Prelude.{◌≡◌, List, Some, IfSome, IsTrue};
ghost use Rattle.lalrpop_norm_tree_names.specs.declared.names.TypeParameter.{TypeParameter};
ghost use Rattle.lalrpop_norm_tree_parts.specs.Reprs.{named_repr};
ghost use Rattle.lalrpop_norm_repr.specs.Tables.{TypeTable};
ghost use Rattle.lalrpop_norm_shared_types.specs.Shared.{shared_view};
ghost use Rattle.lalrpop_norm_tree.specs.Types.{type_view};
ghost use Rattle.lalrpop_norm_tyinfer_steps.specs.TableValues.{type_in};

use lalrpop_norm_shared_types::shared::{SharedType, TypeNode};
use lalrpop_norm_tree::grammar::parse_tree::{Atom, TypeRef};
use lalrpop_norm_tyinfer_steps::numbered::Numbered;

/// Whether a type is that of one name.
fn is_named(ty: &SharedType, name: &Atom) -> bool
    ensures { IsTrue result → shared_view ty.now ≡ named_repr name.now }
{
    match ty.node() {
        TypeNode::Nominal(applied) => {
            if applied.path.absolute || !applied.types.is_empty() {
                return false;
            }
            match applied.path.ids.as_slice() {
                [id] => *id == *name,
                _ => false,
            }
        }
        _ => false,
    }
}

/// The type of the rule at an index, if it is that of a name, and the declared type is this name: so it means that type, whatever
/// the table has.
pub(crate) fn type_meant_at<'t>(
    types: &'t Numbered,
    written: &TypeRef,
    place: Option<usize>,
) -> Option<&'t SharedType>
    ensures { IfSome result (λ ty. (ps : List TypeParameter) (tt : TypeTable) →
        type_in ps tt (type_view written.now) ≡ Some (shared_view ty.now)) }
{
    let ty = types.at(place?)?;
    match written {
        TypeRef::Id(name) if is_named(ty, name) => Some(ty),
        _ => None,
    }
}
