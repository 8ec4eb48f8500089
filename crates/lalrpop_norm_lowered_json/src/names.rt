//! Spans, names, paths.
ghost use Rattle.std.specs.Prelude.{◌≡◌};
ghost use Rattle.serde_json.specs.Data.{string};

use crate::put::Form;
use json::Writer;
use lalrpop_norm_lowered_json_tables::put::{Plain, Puts, put_field, put_list_field, put_variant};
use lalrpop_norm_tree::grammar::parse_tree::{Atom, Lifetime, Path, Span, TypeParameter};
use std::alloc::AllocError;

impl Puts<Span> for Form {
    ghost use Rattle.lalrpop_norm_json.specs.Forms.{span_form};

    ghost form = { span_form };

    fn put(out: &mut Writer, value: &Span) -> Result<(), AllocError> {
        out.begin_array()?;
        out.u64(value.0 as u64)?;
        out.u64(value.1 as u64)?;
        out.end_array()
    }
}

impl Puts<Lifetime> for Form {
    ghost use Rattle.lalrpop_norm_json.specs.Forms.{lifetime_form};

    ghost form = { lifetime_form };

    fn put(out: &mut Writer, value: &Lifetime) -> Result<(), AllocError> {
        out.string(value.0.as_str())
    }
}

impl Puts<TypeParameter> for Form {
    ghost use Rattle.lalrpop_norm_json.specs.Forms.{type_parameter_form};

    ghost form = { type_parameter_form };

    fn put(out: &mut Writer, value: &TypeParameter) -> Result<(), AllocError> {
        match value {
            TypeParameter::Lifetime(lifetime) => put_variant::<Lifetime, Form>(
                out, "Lifetime", lifetime,
            ),
            TypeParameter::Id(name) => put_variant::<Atom, Plain>(out, "Id", name),
        }
    }
}

impl Puts<Path> for Form {
    ghost use Rattle.lalrpop_norm_tree_parts.specs.Paths.{path_view};
    ghost use Rattle.lalrpop_norm_json.specs.Forms.{path_form};

    ghost form = { λ p. path_form (path_view p) };

    fn put(out: &mut Writer, value: &Path) -> Result<(), AllocError> {
        out.begin_object()?;
        put_field::<bool, Plain>(out, "absolute", &value.absolute)?;
        put_list_field::<Atom, Plain>(out, "ids", &value.ids)?;
        out.end_object()
    }
}
