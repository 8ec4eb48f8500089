//! The lines of JSON of a tree: a leaf or a node in each, a node behind its children.
ghost use Rattle.std.specs.Prelude.{◌≡◌, ◌++◌, IfOk, OnOk, string_bytes};
ghost use Rattle.lalrpop_norm_model.specs.Reading.{literal_terminal, terminal_of};
ghost use Rattle.lalrpop_norm_explain.specs.Trees.{lowered_view, lowered_views, written_view, written_views};
ghost use Rattle.lexplain_lines.specs.TreeLines.{text_json, terminal_json, leaf_line, node_line};
ghost use Rattle.lexplain_lines.specs.TreeLines.{written_lines, all_written_lines, lowered_lines, all_lowered_lines};

use lalrpop_norm_explain::{LoweredTree, WrittenTree};
use lalrpop_norm_tree_names::names::{NonterminalString, TerminalLiteral, TerminalString};
use serde_json::Value;
use std::alloc::{AllocError, Global};

/// The lines of a written tree.
pub fn written_lines(alloc: Global, tree: &WrittenTree) -> Result<String, AllocError>
    ensures { IfOk result (λ text. string_bytes text ≡ written_lines (written_view tree.now)) }
{
    let mut text = String::new(alloc);
    push_written(alloc, &mut text, tree)?;
    Ok(text)
}

/// The lines of a lowered tree.
pub fn lowered_lines(alloc: Global, tree: &LoweredTree) -> Result<String, AllocError>
    ensures { IfOk result (λ text. string_bytes text ≡ lowered_lines (lowered_view tree.now)) }
{
    let mut text = String::new(alloc);
    push_lowered(alloc, &mut text, tree)?;
    Ok(text)
}

#[cycle(written)]
#[tactic(auto, using(crate::proofs::LineLemmas::list_lines))]
fn push_written(alloc: Global, text: &mut String, tree: &WrittenTree) -> Result<(), AllocError>
    ensures { OnOk result (string_bytes text.new ≡ string_bytes text.old ++ written_lines (written_view tree.now)) }
{
    match tree {
        WrittenTree::Leaf(terminal) => push_leaf(alloc, text, terminal),
        WrittenTree::Nothing => text.push_str("\"Nothing\"\n"),
        WrittenTree::List(trees) => {
            push_all_written(alloc, text, trees)?;
            let count = trees.len();
            write!(text, "{{\"List\":{count}}}\n")
        }
        WrittenTree::Node {
            rule,
            alternative,
            children,
        } => {
            push_all_written(alloc, text, children)?;
            let fields = Fields {
                name: "rule",
                number: "alternative",
            };
            push_node(alloc, text, fields, rule, *alternative, children.len())
        }
    }
}

#[cycle(written)]
#[tactic(auto, using(crate::proofs::LineLemmas::written_step_lines))]
fn push_all_written(
    alloc: Global,
    text: &mut String,
    trees: &[WrittenTree],
) -> Result<(), AllocError>
    ensures { OnOk result (string_bytes text.new ≡ string_bytes text.old ++ all_written_lines (written_views trees.now)) }
{
    for tree in trees {
        push_written(alloc, text, tree)?;
    }
    Ok(())
}

#[cycle(lowered)]
fn push_lowered(alloc: Global, text: &mut String, tree: &LoweredTree) -> Result<(), AllocError>
    ensures { OnOk result (string_bytes text.new ≡ string_bytes text.old ++ lowered_lines (lowered_view tree.now)) }
{
    match tree {
        LoweredTree::Leaf(terminal) => push_leaf(alloc, text, terminal),
        LoweredTree::Node {
            nonterminal,
            production,
            children,
        } => {
            push_all_lowered(alloc, text, children)?;
            let fields = Fields {
                name: "nonterminal",
                number: "production",
            };
            push_node(
                alloc,
                text,
                fields,
                nonterminal,
                *production,
                children.len(),
            )
        }
    }
}

#[cycle(lowered)]
#[tactic(auto, using(crate::proofs::LineLemmas::lowered_step_lines))]
fn push_all_lowered(
    alloc: Global,
    text: &mut String,
    trees: &[LoweredTree],
) -> Result<(), AllocError>
    ensures { OnOk result (string_bytes text.new ≡ string_bytes text.old ++ all_lowered_lines (lowered_views trees.now)) }
{
    for tree in trees {
        push_lowered(alloc, text, tree)?;
    }
    Ok(())
}

/// What a node's line calls its name and its number.
#[derive(Clone, Copy)]
struct Fields<'a> {
    name: &'a str,
    number: &'a str,
}

/// The line of a node.
fn push_node(
    alloc: Global,
    text: &mut String,
    fields: Fields<'_>,
    name: &NonterminalString,
    number: usize,
    count: usize,
) -> Result<(), AllocError>
    ensures { OnOk result (string_bytes text.new
        ≡ string_bytes text.old ++ node_line fields.entry.name.now fields.entry.number.now name.now.0 number count) }
{
    let field = fields.name;
    let number_field = fields.number;
    write!(text, "{{\"Node\":{{\"{field}\":")?;
    push_text(alloc, text, name.0.as_str())?;
    write!(
        text,
        ",\"{number_field}\":{number},\"children\":{count}}}}}\n"
    )
}

fn push_leaf(alloc: Global, text: &mut String, terminal: &TerminalString) -> Result<(), AllocError>
    ensures { OnOk result (string_bytes text.new ≡ string_bytes text.old ++ leaf_line (terminal_of terminal.now)) }
{
    text.push_str("{\"Leaf\":")?;
    push_terminal(alloc, text, terminal)?;
    text.push_str("}\n")
}

fn push_terminal(
    alloc: Global,
    text: &mut String,
    terminal: &TerminalString,
) -> Result<(), AllocError>
    ensures { OnOk result (string_bytes text.new ≡ string_bytes text.old ++ terminal_json (terminal_of terminal.now)) }
{
    match terminal {
        TerminalString::Literal(literal) => push_literal(alloc, text, literal),
        TerminalString::Bare(name) => push_held(alloc, text, "{\"Bare\":", name.as_str(), "}"),
        TerminalString::Error => text.push_str("\"Error\""),
    }
}

fn push_literal(
    alloc: Global,
    text: &mut String,
    literal: &TerminalLiteral,
) -> Result<(), AllocError>
    ensures { OnOk result (string_bytes text.new ≡ string_bytes text.old ++ terminal_json (literal_terminal literal.now)) }
{
    match literal {
        TerminalLiteral::Quoted(held) => {
            push_held(
                alloc,
                text,
                "{\"Literal\":{\"Quoted\":",
                held.as_str(),
                "}}",
            )
        }
        TerminalLiteral::Regex(held) => {
            push_held(alloc, text, "{\"Literal\":{\"Regex\":", held.as_str(), "}}")
        }
    }
}

/// A text as JSON, with what comes before and behind it.
fn push_held(
    alloc: Global,
    text: &mut String,
    before: &str,
    held: &str,
    behind: &str,
) -> Result<(), AllocError>
    ensures { OnOk result (string_bytes text.new ≡ string_bytes text.old ++ (before.now ++ (text_json held.now ++ behind.now))) }
{
    text.push_str(before)?;
    push_text(alloc, text, held)?;
    text.push_str(behind)
}

/// A text as JSON.
fn push_text(alloc: Global, text: &mut String, held: &str) -> Result<(), AllocError>
    ensures { OnOk result (string_bytes text.new ≡ string_bytes text.old ++ text_json held.now) }
{
    let value = Value::try_from_str(alloc, held)?;
    let shown = value.to_string(alloc)?;
    text.push_str(shown.as_str())
}
