//! The lines of a derivation tree of a lowered grammar.
ghost use Rattle.std.specs.Prelude.{◌≡◌, ◌≤◌, ◌<◌, [], ◌∷◌, ◌++◌, length, None, IfOk, OnOk, IsErrOf};
ghost use Rattle.json.specs.Reads.{token_of};
ghost use Rattle.json_records.specs.Reading.{data_of, IsRead};
ghost use Rattle.lalrpop_norm_explain.specs.Trees.{lowered_views};
ghost use Rattle.lexplain_lines.specs.LineForms.{all_lowered_forms};
ghost use Rattle.lexplain_lines.specs.Lines.{lowered_line_form, lowered_line_children};

use crate::line::Line;
use crate::read::LinesError;
use crate::stack::last_of;
use json::{Reader, Token};
use json_records::{And, End, ReadError, Variant, pass, read_record, read_variant};
use lalrpop_norm_explain::LoweredTree;
use lalrpop_norm_tree_names::names::{NonterminalString, TerminalString};
use std::alloc::Global;

/// What a line says.
#[derive(Drop)]
pub(crate) enum LoweredLine {
    /// A leaf.
    Leaf(TerminalString),
    /// A node, of which so many of the trees before are the children.
    Node {
        nonterminal: NonterminalString,
        production: usize,
        children: usize,
    },
}

impl Variant<LoweredLine> for Line {
    ghost use Rattle.lalrpop_norm_json.specs.Shapes.{fits};
    ghost use Rattle.lalrpop_norm_json.specs.Laws.{no_variant};
    ghost use Rattle.lexplain_lines.specs.Lines.{lowered_line_form, lowered_line_shape};

    ghost form = { lowered_line_form };

    ghost can = { fits lowered_line_shape };

    ghost law = { λ d other. no_variant _ _ d other };

    fn bare(_name: &str) -> Option<LoweredLine> {
        None
    }

    fn held<'a>(
        alloc: Global,
        name: &str,
        first: Token<'a>,
        reader: &mut Reader<'a>,
        depth: usize,
    ) -> Result<Option<LoweredLine>, ReadError> {
        match name {
            "Leaf" => match read_variant::<TerminalString, Line>(alloc, first, reader, depth)? {
                Some(terminal) => Ok(Some(LoweredLine::Leaf(terminal))),
                None => Ok(None),
            },
            "Node" => match read_record::<
                Line,
                And<usize, And<NonterminalString, And<usize, End>>>,
            >(
                alloc,
                &["children", "nonterminal", "production"],
                first,
                reader,
                depth,
            )? {
                Some((children, (nonterminal, (production, ())))) => {
                    Ok(Some(LoweredLine::Node {
                        nonterminal,
                        production,
                        children,
                    }))
                }
                None => Ok(None),
            },
            _ => {
                pass(first, reader, depth)?;
                Ok(None)
            }
        }
    }
}

/// Puts the tree of a line onto those before, of which it takes its children.
pub(crate) fn take_lowered(
    alloc: Global,
    trees: &mut Vec<LoweredTree>,
    line: LoweredLine,
) -> Result<(), LinesError>
    ensures ok { OnOk result (all_lowered_forms (lowered_views trees.new.items)
        ≡ all_lowered_forms (lowered_views trees.old.items) ++ (lowered_line_form line ∷ [])) }
    ensures not { IsErrOf result LinesError.NotATree → length trees.old.items < lowered_line_children line }
{
    let tree = match line {
        LoweredLine::Leaf(terminal) => LoweredTree::Leaf(terminal),
        LoweredLine::Node {
            nonterminal,
            production,
            children,
        } => LoweredTree::Node {
            nonterminal,
            production,
            children: last_of(alloc, trees, children)?,
        },
    };
    trees.push(tree)?;
    Ok(())
}
