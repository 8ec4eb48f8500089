//! Whole lowered grammars.
ghost use Rattle.std.specs.Prelude.{◌≡◌, ◌∷◌, [], None, Some, IfOk, codes, option_map};
ghost use Rattle.serde_json.specs.Data.{string};
ghost use Rattle.serde_json.specs.Written.{compact_text};
ghost use Rattle.lalrpop_norm_repr.specs.Lowered.{lowered_grammar_view};
ghost use Rattle.lalrpop_norm_shared_types.specs.Grammars.{shared_grammar_view};
ghost use Rattle.lalrpop_norm_json.specs.Json.{list_form, maybe_form};
ghost use Rattle.lalrpop_norm_json.specs.Forms.{nonterminal_form, terminal_form, type_parameter_form};
ghost use Rattle.lalrpop_norm_origins.specs.Origins.{origins_view};
ghost use Rattle.lalrpop_norm_explain.specs.TracedGrammars.{grammar_in, origins_in};
ghost use Rattle.lalrpop_norm_lowered_json_tables.specs.Fields.{PutsFields};
ghost use Rattle.lalrpop_norm_lowered_json.specs.LoweredForms.{lowered_pattern_form};
ghost use Rattle.lalrpop_norm_lowered_json.specs.WholeForms.{lowered_form, terminals_form};
ghost use Rattle.lalrpop_norm_lowered_json.specs.WholeForms.{algorithm_form, codegen_form, whole_form};
ghost use Rattle.lalrpop_norm_lowered_json.specs.WholeForms.{rows_form, intern_token_form};
ghost use Rattle.lalrpop_norm_lowered_json.specs.WholeForms.{entry_form, lowered_parameter_form};

use crate::put::{Form, put_maybe_field};
use crate::tables::put_shared_table;
use json::Writer;
use lalrpop_norm_explain::Traced;
use lalrpop_norm_lowered_json_tables::grammar::{put_uses, put_with_origins};
use lalrpop_norm_lowered_json_tables::put::{
    Plain, Puts, put_field, put_list_field, put_rows_field,
};
use lalrpop_norm_origins::Origin;
use lalrpop_norm_repr::grammar::repr::{
    ActionFnDefn, Algorithm, Grammar, InternToken, LrCodeGeneration, NonterminalData,
    NonterminalString, Parameter, TerminalSet, TerminalString, TypeParameter, TypeRepr, Types,
    WhereClause,
};
use lalrpop_norm_shared_types::action::SharedActionFnDefn;
use lalrpop_norm_shared_types::grammar::SharedGrammar;
use lalrpop_norm_tree::grammar::pattern::Pattern;
use std::alloc::{AllocError, Global};

/// The room that is taken at first for a text, in bytes.
const ROOM: usize = 4096;

/// The JSON of a lowered grammar (docs/use/FORMATS.md), one line without its line feed, without origins. The only error is a failed
/// allocation.
pub fn grammar_json(alloc: Global, grammar: &Grammar) -> Result<Vec<u8>, AllocError>
    ensures { IfOk result (λ t. t.items ≡ compact_text (whole_form None (lowered_grammar_view grammar.now))) }
{
    let mut out = Writer::new(Vec::with_capacity(alloc, ROOM)?);
    put_with_origins::<Grammar, Form>(&mut out, grammar, None)?;
    Ok(out.into_inner())
}

/// That JSON with the origins of the actions. The only error is a failed allocation.
pub fn traced_json(alloc: Global, traced: &Traced) -> Result<Vec<u8>, AllocError>
    ensures { IfOk result (λ t. t.items ≡ compact_text (whole_form (Some (origins_in traced.now)) (grammar_in traced.now))) }
{
    let mut out = Writer::new(Vec::with_capacity(alloc, ROOM)?);
    put_with_origins::<Grammar, Form>(&mut out, traced.grammar(), Some(traced.origins()))?;
    Ok(out.into_inner())
}

/// That JSON of a lowered grammar whose types share their parts, with the origins of its actions if they are given. The only error
/// is a failed allocation.
pub fn shared_json(
    alloc: Global,
    grammar: &SharedGrammar,
    origins: Option<&[Origin]>,
) -> Result<Vec<u8>, AllocError>
    ensures { IfOk result (λ t. t.items
        ≡ compact_text (whole_form (option_map (λ os. origins_view os.now) origins.entry) (shared_grammar_view grammar.now))) }
{
    let mut out = Writer::new(Vec::with_capacity(alloc, ROOM)?);
    put_with_origins::<SharedGrammar, Form>(&mut out, grammar, origins)?;
    Ok(out.into_inner())
}

impl Puts<Grammar> for Form {
    ghost form = { λ g. lowered_form (lowered_grammar_view g) };

    fn put(out: &mut Writer, value: &Grammar) -> Result<(), AllocError> {
        out.begin_object()?;
        put_list_field::<ActionFnDefn, Form>(out, "action_fn_defns", &value.action_fn_defns)?;
        put_to_intern_token(out, value)?;
        put_to_prefix(out, value)?;
        put_to_type_parameters(out, value)?;
        put_field::<Types, Form>(out, "types", &value.types)?;
        put_uses(out, value)?;
        put_list_field::<WhereClause, Form>(out, "where_clauses", &value.where_clauses)?;
        out.end_object()
    }
}

impl Puts<SharedGrammar> for Form {
    ghost form = { λ g. lowered_form (shared_grammar_view g) };

    fn put(out: &mut Writer, value: &SharedGrammar) -> Result<(), AllocError> {
        out.begin_object()?;
        put_list_field::<SharedActionFnDefn, Form>(out, "action_fn_defns", &value.action_fn_defns)?;
        put_to_intern_token(out, &value.rest)?;
        put_to_prefix(out, &value.rest)?;
        put_to_type_parameters(out, &value.rest)?;
        put_shared_table(out, &value.rest.types, &value.nonterminal_types)?;
        put_uses(out, &value.rest)?;
        put_list_field::<WhereClause, Form>(out, "where_clauses", &value.rest.where_clauses)?;
        out.end_object()
    }
}

/// The fields from `algorithm` to `intern_token`.
fn put_to_intern_token(out: &mut Writer, grammar: &Grammar) -> Result<(), AllocError>
    ensures { PutsFields result out.old out.new
        ((codes "algorithm", algorithm_form (lowered_grammar_view grammar.now).algorithm)
        ∷ (codes "conversions", rows_form terminal_form lowered_pattern_form (lowered_grammar_view grammar.now).conversions)
        ∷ (codes "intern_token", maybe_form intern_token_form (lowered_grammar_view grammar.now).intern_token) ∷ []) }
{
    put_field::<Algorithm, Form>(out, "algorithm", &grammar.algorithm)?;
    put_rows_field::<TerminalString, Pattern<TypeRepr>, Plain, Form>(
        out,
        "conversions",
        &grammar.conversions,
    )?;
    put_maybe_field::<InternToken, Form>(out, "intern_token", &grammar.intern_token)
}

/// The fields from `module_attributes` to `prefix`.
fn put_to_prefix(out: &mut Writer, grammar: &Grammar) -> Result<(), AllocError>
    ensures { PutsFields result out.old out.new
        ((codes "module_attributes", list_form string (lowered_grammar_view grammar.now).module_attributes)
        ∷ (codes "nonterminals", rows_form nonterminal_form entry_form (lowered_grammar_view grammar.now).nonterminals)
        ∷ (codes "parameters", list_form lowered_parameter_form (lowered_grammar_view grammar.now).parameters)
        ∷ (codes "prefix", string (lowered_grammar_view grammar.now).prefix) ∷ []) }
{
    put_list_field::<String, Plain>(out, "module_attributes", &grammar.module_attributes)?;
    put_rows_field::<NonterminalString, NonterminalData, Plain, Form>(
        out,
        "nonterminals",
        &grammar.nonterminals,
    )?;
    put_list_field::<Parameter, Form>(out, "parameters", &grammar.parameters)?;
    put_field::<String, Plain>(out, "prefix", &grammar.prefix)
}

/// The fields from `start_nonterminals` to `type_parameters`.
fn put_to_type_parameters(out: &mut Writer, grammar: &Grammar) -> Result<(), AllocError>
    ensures { PutsFields result out.old out.new
        ((codes "start_nonterminals", rows_form nonterminal_form nonterminal_form (lowered_grammar_view grammar.now).start_nonterminals)
        ∷ (codes "terminals", terminals_form (lowered_grammar_view grammar.now).terminals)
        ∷ (codes "type_parameters", list_form type_parameter_form (lowered_grammar_view grammar.now).type_parameters) ∷ []) }
{
    put_rows_field::<NonterminalString, NonterminalString, Plain, Plain>(
        out,
        "start_nonterminals",
        &grammar.start_nonterminals,
    )?;
    put_field::<TerminalSet, Plain>(out, "terminals", &grammar.terminals)?;
    put_list_field::<TypeParameter, Form>(out, "type_parameters", &grammar.type_parameters)
}

impl Puts<Algorithm> for Form {
    ghost form = { algorithm_form };

    fn put(out: &mut Writer, value: &Algorithm) -> Result<(), AllocError> {
        out.begin_object()?;
        put_field::<LrCodeGeneration, Form>(out, "codegen", &value.codegen)?;
        put_field::<bool, Plain>(out, "lalr", &value.lalr)?;
        out.end_object()
    }
}

impl Puts<LrCodeGeneration> for Form {
    ghost form = { codegen_form };

    fn put(out: &mut Writer, value: &LrCodeGeneration) -> Result<(), AllocError> {
        match value {
            LrCodeGeneration::TableDriven => out.string("TableDriven"),
            LrCodeGeneration::RecursiveAscent => out.string("RecursiveAscent"),
            LrCodeGeneration::TestAll => out.string("TestAll"),
        }
    }
}
