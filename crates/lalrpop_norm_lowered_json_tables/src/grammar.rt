//! A grammar with its origins, and two of its fields.
ghost use Rattle.std.specs.Prelude.{◌≡◌, ◌++◌, ◌∷◌, [], OnOk, codes};
ghost use Rattle.json.specs.Token.{key};
ghost use Rattle.serde_json.specs.Data.{string, boolean};
ghost use Rattle.lalrpop_norm_repr.specs.Lowered.{lowered_grammar_view};
ghost use Rattle.lalrpop_norm_origins.specs.Origins.{origin_view};
ghost use Rattle.lalrpop_norm_json.specs.Json.{fields, list_form, maybe_form};
ghost use Rattle.lalrpop_norm_lowered_json_tables.specs.Written.{Puts, data_tokens};
ghost use Rattle.lalrpop_norm_lowered_json_tables.specs.Fields.{PutsFields};
ghost use Rattle.lalrpop_norm_lowered_json_tables.specs.TableForms.{origin_form};

use crate::origins::put_origins;
use crate::put::{Plain, Puts, put_field, put_list_field};
use json::Writer;
use lalrpop_norm_origins::Origin;
use lalrpop_norm_repr::grammar::repr::Grammar;
use std::alloc::AllocError;

/// A grammar, and the origins of its actions: `null` if they are not asked for.
pub fn put_with_origins<G, K: Puts<G>>(
    out: &mut Writer,
    grammar: &G,
    origins: Option<&[Origin]>,
) -> Result<(), AllocError>
    ensures { Puts result out.old out.new (fields ((codes "grammar", K.Puts.form grammar.now)
        ∷ (codes "origins", maybe_form (λ os. list_form (λ o. origin_form (origin_view o)) os.now) origins.entry) ∷ [])) }
{
    out.begin_object()?;
    put_field::<G, K>(out, "grammar", grammar)?;
    put_origins_field(out, origins)?;
    out.end_object()
}

/// The field of the origins.
fn put_origins_field(out: &mut Writer, origins: Option<&[Origin]>) -> Result<(), AllocError>
    ensures ok { OnOk result (out.new.tokens ≡ out.old.tokens ++ key (codes "origins")
        ∷ data_tokens (maybe_form (λ os. list_form (λ o. origin_form (origin_view o)) os.now) origins.entry)) }
    ensures before { out.new.before ≡ out.old.before }
{
    out.key("origins")?;
    match origins {
        Some(origins) => put_origins(out, origins),
        None => out.null(),
    }
}

/// The fields `uses` and `uses_error_recovery`.
pub fn put_uses(out: &mut Writer, grammar: &Grammar) -> Result<(), AllocError>
    ensures { PutsFields result out.old out.new ((codes "uses", list_form string (lowered_grammar_view grammar.now).uses)
        ∷ (codes "uses_error_recovery", boolean (lowered_grammar_view grammar.now).uses_error_recovery) ∷ []) }
{
    put_list_field::<String, Plain>(out, "uses", &grammar.uses)?;
    put_field::<bool, Plain>(out, "uses_error_recovery", &grammar.uses_error_recovery)
}
