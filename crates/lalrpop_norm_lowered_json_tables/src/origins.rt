//! Origins.
ghost use Rattle.std.specs.Prelude.{◌≡◌, [], ◌∷◌, codes};
ghost use Rattle.serde_json.specs.Data.{string};
ghost use Rattle.lalrpop_norm_json.specs.Json.{fields, variant, natural, list_form};
ghost use Rattle.lalrpop_norm_origins.specs.Origins.{origin_view};
ghost use Rattle.lalrpop_norm_lowered_json_tables.specs.Written.{Puts};
ghost use Rattle.lalrpop_norm_lowered_json_tables.specs.TableForms.{origin_form};

use crate::put::{Plain, Puts, begin_variant, put_field};
use json::Writer;
use lalrpop_norm_origins::Origin;
use lalrpop_norm_repr::grammar::repr::NonterminalString;
use std::alloc::AllocError;

impl Puts<Origin> for Plain {
    ghost form = { λ o. origin_form (origin_view o) };

    fn put(out: &mut Writer, value: &Origin) -> Result<(), AllocError> {
        match value {
            Origin::Start => out.string("Start"),
            Origin::Written { rule, alternative } => put_written(out, rule, alternative),
            Origin::LevelStep => out.string("LevelStep"),
            Origin::Group => out.string("Group"),
            Origin::StarEmpty => out.string("StarEmpty"),
            Origin::StarSome => out.string("StarSome"),
            Origin::PlusOne => out.string("PlusOne"),
            Origin::PlusMore => out.string("PlusMore"),
            Origin::QuestionSome => out.string("QuestionSome"),
            Origin::QuestionEmpty => out.string("QuestionEmpty"),
            Origin::Times => out.string("Times"),
            Origin::Lookahead => out.string("Lookahead"),
            Origin::Lookbehind => out.string("Lookbehind"),
        }
    }
}

/// The variant `Written`.
fn put_written(
    out: &mut Writer,
    rule: &NonterminalString,
    alternative: &usize,
) -> Result<(), AllocError>
    ensures { Puts result out.old out.new (variant (codes "Written")
        (fields ((codes "alternative", natural alternative.now) ∷ (codes "rule", string rule.now.0) ∷ []))) }
{
    begin_variant(out, "Written")?;
    out.begin_object()?;
    put_field::<usize, Plain>(out, "alternative", alternative)?;
    put_field::<NonterminalString, Plain>(out, "rule", rule)?;
    out.end_object()?;
    out.end_object()
}

/// The origins of the actions, by their numbers.
pub(crate) fn put_origins(out: &mut Writer, origins: &[Origin]) -> Result<(), AllocError>
    ensures { Puts result out.old out.new (list_form (λ o. origin_form (origin_view o)) origins.now) }
{
    out.begin_array()?;
    for origin in origins {
        <Plain as Puts<Origin>>::put(out, origin)?;
    }
    out.end_array()
}
