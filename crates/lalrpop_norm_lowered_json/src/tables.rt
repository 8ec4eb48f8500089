//! The table of types.
ghost use Rattle.std.specs.Prelude.{◌≡◌, ◌++◌, ◌∷◌, [], OnOk, codes, option_map};
ghost use Rattle.json.specs.Token.{key};
ghost use Rattle.lalrpop_norm_tree_parts.specs.Reprs.{repr_view};
ghost use Rattle.lalrpop_norm_repr.specs.Tables.{rows, type_table};
ghost use Rattle.lalrpop_norm_shared_types.specs.Shared.{shared_view};
ghost use Rattle.lalrpop_norm_json.specs.Json.{maybe_form};
ghost use Rattle.lalrpop_norm_json.specs.Forms.{terminal_form};
ghost use Rattle.lalrpop_norm_lowered_json_tables.specs.Written.{Puts, data_tokens};
ghost use Rattle.lalrpop_norm_lowered_json_tables.specs.Fields.{PutsFields};
ghost use Rattle.lalrpop_norm_lowered_json.specs.LoweredForms.{repr_form};
ghost use Rattle.lalrpop_norm_lowered_json.specs.WholeForms.{rows_form, type_table_form};

use crate::put::Form;
use crate::types::put_type;
use json::Writer;
use lalrpop_norm_lowered_json_tables::put::{Plain, Puts, put_field, put_rows_field};
use lalrpop_norm_repr::grammar::repr::{NonterminalString, TerminalString, TypeRepr, Types};
use lalrpop_norm_shared_types::shared::SharedType;
use std::alloc::AllocError;
use std::collections::BTreeMap;

impl Puts<Types> for Form {
    ghost form = { λ t. type_table_form (type_table t) };

    fn put(out: &mut Writer, value: &Types) -> Result<(), AllocError> {
        out.begin_object()?;
        put_error_types(out, value)?;
        put_rows_field::<NonterminalString, TypeRepr, Plain, Form>(
            out,
            "nonterminal_types",
            value.nonterminals(),
        )?;
        put_types_from_parse_error(out, value)?;
        out.end_object()
    }
}

/// The field `types`: the table of those types of nonterminals, and of all other types of `rest`.
pub(crate) fn put_shared_table(
    out: &mut Writer,
    rest: &Types,
    nonterminals: &BTreeMap<NonterminalString, SharedType>,
) -> Result<(), AllocError>
    ensures ok { OnOk result (out.new.tokens ≡ out.old.tokens ++ key (codes "types")
        ∷ data_tokens (type_table_form (record (type_table rest.now) { nonterminals = rows shared_view nonterminals.now }))) }
    ensures before { out.new.before ≡ out.old.before }
{
    out.key("types")?;
    out.begin_object()?;
    put_error_types(out, rest)?;
    put_rows_field::<NonterminalString, SharedType, Plain, Form>(
        out,
        "nonterminal_types",
        nonterminals,
    )?;
    put_types_from_parse_error(out, rest)?;
    out.end_object()
}

/// The fields of a type table before `nonterminal_types`.
fn put_error_types(out: &mut Writer, types: &Types) -> Result<(), AllocError>
    ensures { PutsFields result out.old out.new ((codes "error_recovery_type", repr_form (type_table types.now).recovery)
        ∷ (codes "error_type", maybe_form repr_form (type_table types.now).error) ∷ []) }
{
    put_field::<TypeRepr, Form>(out, "error_recovery_type", types.error_recovery_type())?;
    put_maybe_type(out, "error_type", types.opt_error_type())
}

/// The fields after it.
fn put_types_from_parse_error(out: &mut Writer, types: &Types) -> Result<(), AllocError>
    ensures { PutsFields result out.old out.new ((codes "parse_error_type", repr_form (type_table types.now).parse_error)
        ∷ (codes "terminal_loc_type", maybe_form repr_form (type_table types.now).location)
        ∷ (codes "terminal_token_type", repr_form (type_table types.now).token)
        ∷ (codes "terminal_types", rows_form terminal_form repr_form (type_table types.now).terminals) ∷ []) }
{
    put_field::<TypeRepr, Form>(out, "parse_error_type", types.parse_error_type())?;
    put_maybe_type(out, "terminal_loc_type", types.opt_terminal_loc_type())?;
    put_field::<TypeRepr, Form>(out, "terminal_token_type", types.terminal_token_type())?;
    put_rows_field::<TerminalString, TypeRepr, Plain, Form>(
        out,
        "terminal_types",
        types.terminals(),
    )
}

/// A field with a type that may be absent: `null` then.
fn put_maybe_type(out: &mut Writer, name: &str, ty: Option<&TypeRepr>) -> Result<(), AllocError>
    ensures ok { OnOk result (out.new.tokens
        ≡ out.old.tokens ++ key name.now ∷ data_tokens (maybe_form repr_form (option_map (λ t. repr_view t.now) ty.entry))) }
    ensures before { out.new.before ≡ out.old.before }
{
    out.key(name)?;
    match ty {
        Some(ty) => put_type(out, ty),
        None => out.null(),
    }
}
