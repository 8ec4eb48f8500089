//! Patterns of arguments.
ghost use Rattle.std.specs.Prelude.{◌≡◌};
ghost use Rattle.lalrpop_norm_tree.specs.Symbols.{argument_pattern_view, argument_patterns_view, tuple_view};
ghost use Rattle.lalrpop_norm_json.specs.SymbolForms.{argument_pattern_form, argument_patterns_form, name_form, tuple_form};
ghost use Rattle.serde_json.specs.Data.{array};
ghost use Rattle.lalrpop_norm_lowered_json_tables.specs.Written.{Puts};

use crate::put::Form;
use json::Writer;
use lalrpop_norm_lowered_json_tables::put::{Plain, Puts, begin_variant, put_field, put_variant};
use lalrpop_norm_tree::grammar::parse_tree::{ArgPattern, Atom, Name, Tuple};
use std::alloc::AllocError;

impl Puts<Name> for Form {
    ghost form = { name_form };

    fn put(out: &mut Writer, value: &Name) -> Result<(), AllocError> {
        out.begin_object()?;
        put_field::<bool, Plain>(out, "mutable", &value.mutable)?;
        put_field::<Atom, Plain>(out, "name", &value.name)?;
        out.end_object()
    }
}

impl Puts<ArgPattern> for Form {
    ghost form = { λ p. argument_pattern_form (argument_pattern_view p) };

    fn put(out: &mut Writer, value: &ArgPattern) -> Result<(), AllocError> {
        put_argument_pattern(out, value)
    }
}

#[cycle(arguments)]
fn put_argument_pattern(out: &mut Writer, pattern: &ArgPattern) -> Result<(), AllocError>
    ensures { Puts result out.old out.new (argument_pattern_form (argument_pattern_view pattern.now)) }
{
    match pattern {
        ArgPattern::Name(name) => put_variant::<Name, Form>(out, "Name", name),
        ArgPattern::Tuple(tuple) => {
            begin_variant(out, "Tuple")?;
            put_tuple(out, tuple)?;
            out.end_object()
        }
    }
}

#[cycle(arguments)]
fn put_tuple(out: &mut Writer, tuple: &Tuple) -> Result<(), AllocError>
    ensures { Puts result out.old out.new (tuple_form (tuple_view tuple.now)) }
{
    out.begin_object()?;
    out.key("tuples")?;
    put_patterns(out, &tuple.tuples)?;
    out.end_object()
}

#[cycle(arguments)]
fn put_patterns(out: &mut Writer, patterns: &Vec<ArgPattern>) -> Result<(), AllocError>
    ensures { Puts result out.old out.new (array (argument_patterns_form (argument_patterns_view patterns.now.items))) }
{
    out.begin_array()?;
    for pattern in patterns {
        put_argument_pattern(out, pattern)?;
    }
    out.end_array()
}
