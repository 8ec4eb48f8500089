//! The lines of a written tree.
ghost use Rattle.std.specs.Prelude.{◌≡◌, ◌≤◌, ◌<◌, [], ◌∷◌, ◌++◌, codes, length, None, IfOk, OnOk, IsErrOf};
ghost use Rattle.json.specs.Reads.{token_of};
ghost use Rattle.json_records.specs.Reading.{data_of, IsRead, IsReadUnder};
ghost use Rattle.lalrpop_norm_explain.specs.Trees.{written_views};
ghost use Rattle.lexplain_lines.specs.LineForms.{all_written_forms};
ghost use Rattle.lalrpop_norm_json.specs.Shapes.{fits};
ghost use Rattle.lexplain_lines.specs.Lines.{written_line_form, written_line_children, written_line_shape};

use crate::line::Line;
use crate::read::LinesError;
use crate::stack::last_of;
use json::{Reader, Token};
use json_records::{And, End, ReadError, Reads, Variant, pass, read_record, read_variant};
use lalrpop_norm_explain::WrittenTree;
use lalrpop_norm_tree_names::names::{NonterminalString, TerminalString};
use std::alloc::Global;

/// What a line says.
#[derive(Drop)]
pub(crate) enum WrittenLine {
    /// A location symbol.
    Nothing,
    /// A leaf.
    Leaf(TerminalString),
    /// A list of so many of the trees before.
    List(usize),
    /// A node, of which so many of the trees before are the children.
    Node {
        rule: NonterminalString,
        alternative: usize,
        children: usize,
    },
}

impl Variant<WrittenLine> for Line {
    ghost use Rattle.lalrpop_norm_json.specs.Shapes.{fits};
    ghost use Rattle.lalrpop_norm_json.specs.Laws.{no_variant};
    ghost use Rattle.lexplain_lines.specs.Lines.{written_line_form, written_line_shape};

    ghost form = { written_line_form };

    ghost can = { fits written_line_shape };

    ghost law = { λ d other. no_variant _ _ d other };

    fn bare(name: &str) -> Option<WrittenLine> {
        match name {
            "Nothing" => Some(WrittenLine::Nothing),
            _ => None,
        }
    }

    fn held<'a>(
        alloc: Global,
        name: &str,
        first: Token<'a>,
        reader: &mut Reader<'a>,
        depth: usize,
    ) -> Result<Option<WrittenLine>, ReadError> {
        match name {
            "Leaf" => match read_variant::<TerminalString, Line>(alloc, first, reader, depth)? {
                Some(terminal) => Ok(Some(WrittenLine::Leaf(terminal))),
                None => Ok(None),
            },
            "List" => match <Line as Reads<usize>>::read(alloc, first, reader, depth)? {
                Some(count) => Ok(Some(WrittenLine::List(count))),
                None => Ok(None),
            },
            "Node" => node(alloc, first, reader, depth),
            _ => {
                pass(first, reader, depth)?;
                Ok(None)
            }
        }
    }
}

/// A node.
fn node<'a>(
    alloc: Global,
    first: Token<'a>,
    reader: &mut Reader<'a>,
    depth: usize,
) -> Result<Option<WrittenLine>, ReadError>
    ensures ok { IfOk result (λ o. IsReadUnder (codes "Node") written_line_form (fits written_line_shape) depth
        (token_of first.entry ∷ reader.old) reader.new o) }
    ensures err { IsErrOf result ReadError.NotJson → data_of depth (token_of first.entry ∷ reader.old) ≡ None }
    ensures shorter { OnOk result (length reader.new ≤ length reader.old) }
{
    match read_record::<Line, And<usize, And<usize, And<NonterminalString, End>>>>(
        alloc,
        &["alternative", "children", "rule"],
        first,
        reader,
        depth,
    )? {
        Some((alternative, (children, (rule, ())))) => {
            Ok(Some(WrittenLine::Node {
                rule,
                alternative,
                children,
            }))
        }
        None => Ok(None),
    }
}

/// Puts the tree of a line onto those before, of which it takes its children.
pub(crate) fn take_written(
    alloc: Global,
    trees: &mut Vec<WrittenTree>,
    line: WrittenLine,
) -> Result<(), LinesError>
    ensures ok { OnOk result (all_written_forms (written_views trees.new.items)
        ≡ all_written_forms (written_views trees.old.items) ++ (written_line_form line ∷ [])) }
    ensures not { IsErrOf result LinesError.NotATree → length trees.old.items < written_line_children line }
{
    let tree = match line {
        WrittenLine::Nothing => WrittenTree::Nothing,
        WrittenLine::Leaf(terminal) => WrittenTree::Leaf(terminal),
        WrittenLine::List(count) => WrittenTree::List(last_of(alloc, trees, count)?),
        WrittenLine::Node {
            rule,
            alternative,
            children,
        } => WrittenTree::Node {
            rule,
            alternative,
            children: last_of(alloc, trees, children)?,
        },
    };
    trees.push(tree)?;
    Ok(())
}
