//! Patterns as nodes.
ghost use Rattle.std.specs.Prelude.{◌≡◌, [], IfOk, OnOk, map};
ghost use Rattle.lalrpop_norm_tree.specs.Symbols.{argument_pattern_view, argument_patterns_view};
ghost use Rattle.lalrpop_norm_nodes.specs.Wholes.{one_pattern, patterns, StandsFor};
ghost use Rattle.lalrpop_norm_nodes.specs.Readings.{IsNameNode};
ghost use Rattle.lalrpop_norm_nodes.specs.Tables.{wholes_in, IsNodeTable, TableMeets};

use crate::node::{Binary, Leaf, NamedLeaf, Node, Unary};
use crate::table::Table;
use lalrpop_norm_tree::grammar::parse_tree::{ArgPattern, Name, NoMemory};

fn name_node(name: &Name) -> Result<Node, NoMemory>
    ensures { IfOk result (λ n. IsNameNode n name.now) }
{
    if name.mutable {
        return Ok(Node::NamedLeaf(NamedLeaf::MutPattern, name.name.clone()?));
    }
    Ok(Node::NamedLeaf(NamedLeaf::Pattern, name.name.clone()?))
}

/// The id of a pattern.
#[cycle(pattern)]
fn enter_pattern(pattern: &ArgPattern, table: &mut Table) -> Result<usize, NoMemory>
    requires { IsNodeTable table.old }
    ensures meets { OnOk result (TableMeets table.old table.new []) }
    ensures counted { OnOk result (table.new.made ≡ table.old.made) }
    ensures waiting { OnOk result (table.new.waiting ≡ table.old.waiting) }
    ensures number { IfOk result (λ i. StandsFor (wholes_in table.new) i (one_pattern (argument_pattern_view pattern.now))) }
{
    match pattern {
        ArgPattern::Name(name) => table.enter(name_node(name)?),
        ArgPattern::Tuple(tuple) => {
            let row = enter_patterns(&tuple.tuples, table)?;
            table.enter(Node::Unary(Unary::Several, row))
        }
    }
}

/// The id of patterns in a row.
#[cycle(pattern)]
pub(crate) fn enter_patterns(several: &[ArgPattern], table: &mut Table) -> Result<usize, NoMemory>
    requires { IsNodeTable table.old }
    ensures meets { OnOk result (TableMeets table.old table.new []) }
    ensures counted { OnOk result (table.new.made ≡ table.old.made) }
    ensures waiting { OnOk result (table.new.waiting ≡ table.old.waiting) }
    ensures number { IfOk result (λ i. StandsFor (wholes_in table.new) i (patterns (map argument_pattern_view several.now))) }
{
    let mut row = table.enter(Node::Leaf(Leaf::NoPatterns))?;
    for pattern in several {
        let number = enter_pattern(pattern, table)?;
        row = table.enter(Node::Binary(Binary::Patterns, row, number))?;
    }
    Ok(row)
}
