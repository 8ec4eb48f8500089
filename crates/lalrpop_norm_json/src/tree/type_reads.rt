//! The readers of types and parameters, as those of other parts ask for them.
use super::Tree;
use super::types::type_ref;
use json::{Reader, Token};
use json_records::{And, End, ReadError, Reads, read_record};
use lalrpop_norm_tree::grammar::parse_tree::{Atom, Parameter, TypeRef};
use std::alloc::Global;

impl Reads<TypeRef> for Tree {
    ghost use Rattle.lalrpop_norm_tree.specs.Types.{type_view};
    ghost use Rattle.lalrpop_norm_json.specs.TypeForms.{type_form};
    ghost use Rattle.lalrpop_norm_json.specs.Shapes as shape;
    ghost use Rattle.lalrpop_norm_json.specs.Shapes.{is};

    ghost form = { λ t. type_form (type_view t) };

    ghost can = { is shape.type };

    fn read<'a>(
        alloc: Global,
        first: Token<'a>,
        reader: &mut Reader<'a>,
        depth: usize,
    ) -> Result<Option<TypeRef>, ReadError> {
        type_ref(alloc, first, reader, depth)
    }
}

impl Reads<Parameter> for Tree {
    ghost use Rattle.lalrpop_norm_tree.specs.Types.{parameter_view};
    ghost use Rattle.lalrpop_norm_json.specs.TypeForms.{parameter_form};
    ghost use Rattle.lalrpop_norm_json.specs.Shapes as shape;
    ghost use Rattle.lalrpop_norm_json.specs.Shapes.{is};

    ghost form = { λ p. parameter_form (parameter_view p) };

    ghost can = { is shape.parameter };

    fn read<'a>(
        alloc: Global,
        first: Token<'a>,
        reader: &mut Reader<'a>,
        depth: usize,
    ) -> Result<Option<Parameter>, ReadError> {
        match read_record::<Tree, And<Atom, And<TypeRef, End>>>(
            alloc,
            &["name", "ty"],
            first,
            reader,
            depth,
        )? {
            Some(fields) => {
                let (name, (ty, ())) = fields;
                Ok(Some(Parameter { name, ty }))
            }
            None => Ok(None),
        }
    }
}
