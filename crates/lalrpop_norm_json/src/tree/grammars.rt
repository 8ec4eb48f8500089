//! Items and grammars.
ghost use Rattle.std.specs.Prelude.{◌≡◌, ◌∷◌, map, is_some, Some, false, MatchOption, IfOk};
ghost use Rattle.json.specs.Reads.{token_of};
ghost use Rattle.serde_json.specs.Data.{Data};
ghost use Rattle.json_records.specs.Reading.{data_of};
ghost use Rattle.json_records.specs.Readers.{NotJsonOnlyIfNoData, LeavesNoMore};
ghost use Rattle.lalrpop_norm_tree.specs.Items.{item_view, grammar_view};
ghost use Rattle.lalrpop_norm_json.specs.ItemForms.{item_forms, grammar_form};
ghost use Rattle.lalrpop_norm_json.specs.Shapes as shape;
ghost use Rattle.lalrpop_norm_json.specs.Shapes.{is};

use super::Tree;
use json::{Reader, Token};
use json_records::{And, End, ReadError, Reads, Variant, pass, read_record, read_variant};
use lalrpop_norm_tree::grammar::parse_tree::{
    Attribute, ExternToken, Grammar, GrammarItem, MatchToken, NonterminalData, Parameter, Span,
    TypeParameter, TypeRef, WhereClause,
};
use std::alloc::Global;

impl Variant<GrammarItem> for Tree {
    ghost use Rattle.lalrpop_norm_tree.specs.Items.{item_view};
    ghost use Rattle.lalrpop_norm_json.specs.ItemForms.{form_or_null};
    ghost use Rattle.lalrpop_norm_json.specs.Shapes as shape;
    ghost use Rattle.lalrpop_norm_json.specs.Shapes.{is};
    ghost use Rattle.lalrpop_norm_json.specs.Laws.{no_variant};

    ghost form = { λ i. form_or_null (item_view i) };

    ghost can = { is shape.grammar_item };

    ghost law = { λ d other. no_variant _ _ d other };

    fn bare(_name: &str) -> Option<GrammarItem> {
        None
    }

    fn held<'a>(
        alloc: Global,
        name: &str,
        first: Token<'a>,
        reader: &mut Reader<'a>,
        depth: usize,
    ) -> Result<Option<GrammarItem>, ReadError> {
        match name {
            "MatchToken" => match <Tree as Reads<MatchToken>>::read(alloc, first, reader, depth)? {
                Some(read) => Ok(Some(GrammarItem::MatchToken(read))),
                None => Ok(None),
            },
            "ExternToken" => match <Tree as Reads<ExternToken>>::read(
                alloc, first, reader, depth,
            )? {
                Some(read) => Ok(Some(GrammarItem::ExternToken(read))),
                None => Ok(None),
            },
            "Nonterminal" => match <Tree as Reads<NonterminalData>>::read(
                alloc, first, reader, depth,
            )? {
                Some(read) => Ok(Some(GrammarItem::Nonterminal(read))),
                None => Ok(None),
            },
            "Use" => match <Tree as Reads<String>>::read(alloc, first, reader, depth)? {
                Some(read) => Ok(Some(GrammarItem::Use(read))),
                None => Ok(None),
            },
            _ => {
                pass(first, reader, depth)?;
                Ok(None)
            }
        }
    }
}

impl Reads<GrammarItem> for Tree {
    ghost use Rattle.lalrpop_norm_tree.specs.Items.{item_view};
    ghost use Rattle.lalrpop_norm_json.specs.ItemForms.{form_or_null};
    ghost use Rattle.lalrpop_norm_json.specs.Shapes as shape;
    ghost use Rattle.lalrpop_norm_json.specs.Shapes.{is};

    ghost form = { λ i. form_or_null (item_view i) };

    ghost can = { is shape.grammar_item };

    fn read<'a>(
        alloc: Global,
        first: Token<'a>,
        reader: &mut Reader<'a>,
        depth: usize,
    ) -> Result<Option<GrammarItem>, ReadError> {
        read_variant::<GrammarItem, Tree>(alloc, first, reader, depth)
    }
}

/// Whether each item has a form: no reader makes an `InternToken`, which has none.
fn have_forms(items: &[GrammarItem]) -> bool
    ensures { result ≡ is_some (item_forms (map item_view items.now)) }
{
    for item in items {
        if let GrammarItem::InternToken(_) = item {
            return false;
        }
    }
    true
}

/// The fields of a grammar, in the order of their keys.
type GrammarFields = And<
    Vec<Attribute>,
    And<
        Vec<GrammarItem>,
        And<
            Vec<String>,
            And<
                Vec<Parameter>,
                And<
                    String,
                    And<Span, And<Vec<TypeParameter>, And<Vec<WhereClause<TypeRef>>, End>>>,
                >,
            >,
        >,
    >,
>;

/// The grammar whose form the value is that begins with the token.
pub(crate) fn grammar<'a>(
    alloc: Global,
    first: Token<'a>,
    reader: &mut Reader<'a>,
    depth: usize,
) -> Result<Option<Grammar>, ReadError>
    ensures ok { IfOk result (λ o. (d : Data) × (data_of depth (token_of first.entry ∷ reader.old) ≡ Some (d, reader.new))
        × MatchOption o (is shape.grammar d ≡ false) (λ g. grammar_form (grammar_view g) ≡ Some d)) }
    ensures err { NotJsonOnlyIfNoData result depth first.entry reader.old }
    ensures shorter { LeavesNoMore result reader.old reader.new }
{
    let read = read_record::<Tree, GrammarFields>(
        alloc,
        &[
            "attributes",
            "items",
            "module_attributes",
            "parameters",
            "prefix",
            "span",
            "type_parameters",
            "where_clauses",
        ],
        first,
        reader,
        depth,
    )?;
    let Some(parts) = read else {
        return Ok(None);
    };
    if !have_forms(&parts.1.0) {
        return Ok(None);
    }
    let (attributes, (items, (module_attributes, (parameters, (prefix, (span, others)))))) = parts;
    let (type_parameters, (where_clauses, ())) = others;
    Ok(Some(Grammar {
        prefix,
        span,
        type_parameters,
        parameters,
        where_clauses,
        items,
        attributes,
        module_attributes,
    }))
}
