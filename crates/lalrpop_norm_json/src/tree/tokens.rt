//! Match blocks and extern blocks.
ghost use Rattle.std.specs.Prelude.{codes};
ghost use Rattle.json_records.specs.Readers.{ReadsUnder, NotJsonOnlyIfNoData, LeavesNoMore};
ghost use Rattle.lalrpop_norm_json.specs.Shapes as shape;
ghost use Rattle.lalrpop_norm_json.specs.Shapes.{is};
ghost use Rattle.lalrpop_norm_json.specs.ItemForms.{match_item_form};

use super::Tree;
use json::{Reader, Token};
use json_records::{
    And, End, ReadError, Reads, Variant, pass, read_pair, read_record, read_triple, read_variant,
};
use lalrpop_norm_tree::grammar::parse_tree::{
    AssociatedType, Atom, Attribute, Conversion, EnumToken, ExternToken, MatchContents, MatchItem,
    MatchMapping, MatchToken, Span, TerminalLiteral, TerminalString, TypeRef,
};
use lalrpop_norm_tree::grammar::pattern::Pattern;
use std::alloc::Global;

impl Variant<MatchMapping> for Tree {
    ghost use Rattle.lalrpop_norm_json.specs.ItemForms.{mapping_form};
    ghost use Rattle.lalrpop_norm_json.specs.Shapes as shape;
    ghost use Rattle.lalrpop_norm_json.specs.Shapes.{is};
    ghost use Rattle.lalrpop_norm_json.specs.Laws.{no_variant};

    ghost form = { mapping_form };

    ghost can = { is shape.match_mapping };

    ghost law = { λ d other. no_variant _ _ d other };

    fn bare(name: &str) -> Option<MatchMapping> {
        match name {
            "Skip" => Some(MatchMapping::Skip),
            _ => None,
        }
    }

    fn held<'a>(
        alloc: Global,
        name: &str,
        first: Token<'a>,
        reader: &mut Reader<'a>,
        depth: usize,
    ) -> Result<Option<MatchMapping>, ReadError> {
        match name {
            "Terminal" => match <Tree as Reads<TerminalString>>::read(
                alloc, first, reader, depth,
            )? {
                Some(read) => Ok(Some(MatchMapping::Terminal(read))),
                None => Ok(None),
            },
            _ => {
                pass(first, reader, depth)?;
                Ok(None)
            }
        }
    }
}

impl Reads<MatchMapping> for Tree {
    ghost use Rattle.lalrpop_norm_json.specs.ItemForms.{mapping_form};
    ghost use Rattle.lalrpop_norm_json.specs.Shapes as shape;
    ghost use Rattle.lalrpop_norm_json.specs.Shapes.{is};

    ghost form = { mapping_form };

    ghost can = { is shape.match_mapping };

    fn read<'a>(
        alloc: Global,
        first: Token<'a>,
        reader: &mut Reader<'a>,
        depth: usize,
    ) -> Result<Option<MatchMapping>, ReadError> {
        read_variant::<MatchMapping, Tree>(alloc, first, reader, depth)
    }
}

/// The literal that is its own terminal.
fn unmapped<'a>(
    alloc: Global,
    first: Token<'a>,
    reader: &mut Reader<'a>,
    depth: usize,
) -> Result<Option<MatchItem>, ReadError>
    ensures ok { ReadsUnder result (codes "Unmapped") match_item_form (is shape.match_item) depth first.entry reader.old reader.new }
    ensures err { NotJsonOnlyIfNoData result depth first.entry reader.old }
    ensures shorter { LeavesNoMore result reader.old reader.new }
{
    match read_pair::<TerminalLiteral, Span, Tree, Tree>(alloc, first, reader, depth)? {
        Some((literal, span)) => Ok(Some(MatchItem::Unmapped(literal, span))),
        None => Ok(None),
    }
}

/// The literal with its mapping.
fn mapped<'a>(
    alloc: Global,
    first: Token<'a>,
    reader: &mut Reader<'a>,
    depth: usize,
) -> Result<Option<MatchItem>, ReadError>
    ensures ok { ReadsUnder result (codes "Mapped") match_item_form (is shape.match_item) depth first.entry reader.old reader.new }
    ensures err { NotJsonOnlyIfNoData result depth first.entry reader.old }
    ensures shorter { LeavesNoMore result reader.old reader.new }
{
    match read_triple::<TerminalLiteral, MatchMapping, Span, Tree, Tree, Tree>(
        alloc, first, reader, depth,
    )? {
        Some((literal, mapping, span)) => Ok(Some(MatchItem::Mapped(literal, mapping, span))),
        None => Ok(None),
    }
}

impl Variant<MatchItem> for Tree {
    ghost use Rattle.lalrpop_norm_json.specs.ItemForms.{match_item_form};
    ghost use Rattle.lalrpop_norm_json.specs.Shapes as shape;
    ghost use Rattle.lalrpop_norm_json.specs.Shapes.{is};
    ghost use Rattle.lalrpop_norm_json.specs.Laws.{no_variant};

    ghost form = { match_item_form };

    ghost can = { is shape.match_item };

    ghost law = { λ d other. no_variant _ _ d other };

    fn bare(_name: &str) -> Option<MatchItem> {
        None
    }

    fn held<'a>(
        alloc: Global,
        name: &str,
        first: Token<'a>,
        reader: &mut Reader<'a>,
        depth: usize,
    ) -> Result<Option<MatchItem>, ReadError> {
        match name {
            "CatchAll" => match <Tree as Reads<Span>>::read(alloc, first, reader, depth)? {
                Some(read) => Ok(Some(MatchItem::CatchAll(read))),
                None => Ok(None),
            },
            "Unmapped" => unmapped(alloc, first, reader, depth),
            "Mapped" => mapped(alloc, first, reader, depth),
            _ => {
                pass(first, reader, depth)?;
                Ok(None)
            }
        }
    }
}

impl Reads<MatchItem> for Tree {
    ghost use Rattle.lalrpop_norm_json.specs.ItemForms.{match_item_form};
    ghost use Rattle.lalrpop_norm_json.specs.Shapes as shape;
    ghost use Rattle.lalrpop_norm_json.specs.Shapes.{is};

    ghost form = { match_item_form };

    ghost can = { is shape.match_item };

    fn read<'a>(
        alloc: Global,
        first: Token<'a>,
        reader: &mut Reader<'a>,
        depth: usize,
    ) -> Result<Option<MatchItem>, ReadError> {
        read_variant::<MatchItem, Tree>(alloc, first, reader, depth)
    }
}

impl Reads<MatchContents> for Tree {
    ghost use Rattle.lalrpop_norm_tree.specs.Items.{match_contents_view};
    ghost use Rattle.lalrpop_norm_json.specs.ItemForms.{match_contents_form};
    ghost use Rattle.lalrpop_norm_json.specs.Shapes as shape;
    ghost use Rattle.lalrpop_norm_json.specs.Shapes.{is};

    ghost form = { λ c. match_contents_form (match_contents_view c) };

    ghost can = { is shape.match_contents };

    fn read<'a>(
        alloc: Global,
        first: Token<'a>,
        reader: &mut Reader<'a>,
        depth: usize,
    ) -> Result<Option<MatchContents>, ReadError> {
        match read_record::<Tree, And<Vec<MatchItem>, End>>(
            alloc,
            &["items"],
            first,
            reader,
            depth,
        )? {
            Some((items, ())) => Ok(Some(MatchContents { items })),
            None => Ok(None),
        }
    }
}

impl Reads<MatchToken> for Tree {
    ghost use Rattle.lalrpop_norm_tree.specs.Items.{match_token_view};
    ghost use Rattle.lalrpop_norm_json.specs.ItemForms.{match_token_form};
    ghost use Rattle.lalrpop_norm_json.specs.Shapes as shape;
    ghost use Rattle.lalrpop_norm_json.specs.Shapes.{is};

    ghost form = { λ m. match_token_form (match_token_view m) };

    ghost can = { is shape.match_token };

    fn read<'a>(
        alloc: Global,
        first: Token<'a>,
        reader: &mut Reader<'a>,
        depth: usize,
    ) -> Result<Option<MatchToken>, ReadError> {
        match read_record::<Tree, And<Vec<MatchContents>, And<Span, End>>>(
            alloc,
            &["contents", "span"],
            first,
            reader,
            depth,
        )? {
            Some(fields) => {
                let (contents, (span, ())) = fields;
                Ok(Some(MatchToken { contents, span }))
            }
            None => Ok(None),
        }
    }
}

impl Reads<Conversion> for Tree {
    ghost use Rattle.lalrpop_norm_tree.specs.Items.{conversion_view};
    ghost use Rattle.lalrpop_norm_json.specs.ItemForms.{conversion_form};
    ghost use Rattle.lalrpop_norm_json.specs.Shapes as shape;
    ghost use Rattle.lalrpop_norm_json.specs.Shapes.{is};

    ghost form = { λ c. conversion_form (conversion_view c) };

    ghost can = { is shape.conversion };

    fn read<'a>(
        alloc: Global,
        first: Token<'a>,
        reader: &mut Reader<'a>,
        depth: usize,
    ) -> Result<Option<Conversion>, ReadError> {
        match read_record::<
            Tree,
            And<Vec<Attribute>, And<TerminalString, And<Span, And<Pattern<TypeRef>, End>>>>,
        >(
            alloc,
            &["attributes", "from", "span", "to"],
            first,
            reader,
            depth,
        )? {
            Some(fields) => {
                let (attributes, (from, (span, (to, ())))) = fields;
                Ok(Some(Conversion {
                    span,
                    attributes,
                    from,
                    to,
                }))
            }
            None => Ok(None),
        }
    }
}

impl Reads<EnumToken> for Tree {
    ghost use Rattle.lalrpop_norm_tree.specs.Items.{enum_token_view};
    ghost use Rattle.lalrpop_norm_json.specs.ItemForms.{enum_token_form};
    ghost use Rattle.lalrpop_norm_json.specs.Shapes as shape;
    ghost use Rattle.lalrpop_norm_json.specs.Shapes.{is};

    ghost form = { λ e. enum_token_form (enum_token_view e) };

    ghost can = { is shape.enum_token };

    fn read<'a>(
        alloc: Global,
        first: Token<'a>,
        reader: &mut Reader<'a>,
        depth: usize,
    ) -> Result<Option<EnumToken>, ReadError> {
        match read_record::<Tree, And<Vec<Conversion>, And<TypeRef, And<Span, End>>>>(
            alloc,
            &["conversions", "type_name", "type_span"],
            first,
            reader,
            depth,
        )? {
            Some(fields) => {
                let (conversions, (type_name, (type_span, ()))) = fields;
                Ok(Some(EnumToken {
                    type_name,
                    type_span,
                    conversions,
                }))
            }
            None => Ok(None),
        }
    }
}

impl Reads<AssociatedType> for Tree {
    ghost use Rattle.lalrpop_norm_tree.specs.Items.{associated_type_view};
    ghost use Rattle.lalrpop_norm_json.specs.ItemForms.{associated_type_form};
    ghost use Rattle.lalrpop_norm_json.specs.Shapes as shape;
    ghost use Rattle.lalrpop_norm_json.specs.Shapes.{is};

    ghost form = { λ a. associated_type_form (associated_type_view a) };

    ghost can = { is shape.associated_type };

    fn read<'a>(
        alloc: Global,
        first: Token<'a>,
        reader: &mut Reader<'a>,
        depth: usize,
    ) -> Result<Option<AssociatedType>, ReadError> {
        match read_record::<Tree, And<Atom, And<TypeRef, And<Span, End>>>>(
            alloc,
            &["type_name", "type_ref", "type_span"],
            first,
            reader,
            depth,
        )? {
            Some(fields) => {
                let (type_name, (type_ref, (type_span, ()))) = fields;
                Ok(Some(AssociatedType {
                    type_span,
                    type_name,
                    type_ref,
                }))
            }
            None => Ok(None),
        }
    }
}

impl Reads<ExternToken> for Tree {
    ghost use Rattle.lalrpop_norm_tree.specs.Items.{extern_token_view};
    ghost use Rattle.lalrpop_norm_json.specs.ItemForms.{extern_token_form};
    ghost use Rattle.lalrpop_norm_json.specs.Shapes as shape;
    ghost use Rattle.lalrpop_norm_json.specs.Shapes.{is};

    ghost form = { λ t. extern_token_form (extern_token_view t) };

    ghost can = { is shape.extern_token };

    fn read<'a>(
        alloc: Global,
        first: Token<'a>,
        reader: &mut Reader<'a>,
        depth: usize,
    ) -> Result<Option<ExternToken>, ReadError> {
        match read_record::<Tree, And<Vec<AssociatedType>, And<Option<EnumToken>, And<Span, End>>>>(
            alloc,
            &["associated_types", "enum_token", "span"],
            first,
            reader,
            depth,
        )? {
            Some(fields) => {
                let (associated_types, (enum_token, (span, ()))) = fields;
                Ok(Some(ExternToken {
                    span,
                    associated_types,
                    enum_token,
                }))
            }
            None => Ok(None),
        }
    }
}
