//! Productions.
ghost use Rattle.std.specs.Prelude.{◌≡◌};

use crate::attributes::put_attributes;
use crate::put::Form;
use json::Writer;
use lalrpop_norm_lowered_json_tables::put::{Plain, Puts, put_field, put_list_field};
use lalrpop_norm_repr::grammar::repr::{
    ActionFn, NonterminalData, NonterminalString, Production, Span, Symbol,
};
use lalrpop_norm_tree::grammar::parse_tree::Visibility;
use std::alloc::AllocError;

impl Puts<Production> for Form {
    ghost use Rattle.lalrpop_norm_repr.specs.Productions.{production_view};
    ghost use Rattle.lalrpop_norm_lowered_json.specs.WholeForms.{production_form};

    ghost form = { λ p. production_form (production_view p) };

    fn put(out: &mut Writer, value: &Production) -> Result<(), AllocError> {
        out.begin_object()?;
        put_field::<ActionFn, Plain>(out, "action", &value.action)?;
        put_field::<NonterminalString, Plain>(out, "nonterminal", &value.nonterminal)?;
        put_field::<Span, Form>(out, "span", &value.span)?;
        put_list_field::<Symbol, Plain>(out, "symbols", &value.symbols)?;
        out.end_object()
    }
}

impl Puts<NonterminalData> for Form {
    ghost use Rattle.lalrpop_norm_repr.specs.Productions.{nonterminal_data_view};
    ghost use Rattle.lalrpop_norm_lowered_json.specs.WholeForms.{entry_form};

    ghost form = { λ n. entry_form (nonterminal_data_view n) };

    fn put(out: &mut Writer, value: &NonterminalData) -> Result<(), AllocError> {
        out.begin_object()?;
        out.key("attributes")?;
        put_attributes(out, &value.attributes)?;
        put_list_field::<Production, Form>(out, "productions", &value.productions)?;
        put_field::<Span, Form>(out, "span", &value.span)?;
        put_field::<Visibility, Form>(out, "visibility", &value.visibility)?;
        out.end_object()
    }
}
