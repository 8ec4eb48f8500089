//! A digest of the symbols of a grammar's rules, which is the seed of a table's hashes.
//!
//! A key of a table can be chosen only if it is written there, or made of what is. Whoever changes a key changes all hashes.
ghost use Rattle.std.specs.Prelude.{◌≡◌, ◌++◌, map, flat_map};
ghost use Rattle.std.specs.Hash.{u8, str};
ghost use Rattle.lalrpop_norm_names.specs.Seeds.{hasher_after, seeded_after};
ghost use Rattle.lalrpop_norm_tree.specs.Symbols.{argument_pattern_view, argument_patterns_view, kind_view, symbol_view, parts_view};
ghost use Rattle.lalrpop_norm_tree.specs.Items.{alternative_view, item_view};
ghost use Rattle.lalrpop_norm_nodes.specs.Digests.{name_writes, terminal_writes, op_writes, pattern_writes, patterns_writes};
ghost use Rattle.lalrpop_norm_nodes.specs.Digests.{kind_writes, part_writes, parts_writes, alternative_writes, item_writes};
ghost use Rattle.lalrpop_norm_nodes.specs.Digests.{reader_of_items};

use lalrpop_norm_names::Seeded;
use lalrpop_norm_tree::grammar::parse_tree::{
    Alternative, ArgPattern, Atom, GrammarItem, Name, RepeatOp, Symbol, SymbolKind,
    TerminalLiteral, TerminalString,
};
use std::hash::{DefaultHasher, Hash, Hasher};

/// Reads a text, as the kind that a number says.
fn read_text(tag: u8, text: &Atom, reader: &mut DefaultHasher)
    ensures { reader.new ≡ hasher_after reader.old (u8 tag ++ str text.now) }
{
    reader.write_u8(tag);
    text.hash(reader);
}

fn read_name(name: &Name, reader: &mut DefaultHasher)
    ensures { reader.new ≡ hasher_after reader.old (name_writes name.now) }
{
    name.mutable.hash(reader);
    name.name.hash(reader);
}

#[cycle(pattern)]
fn read_pattern(pattern: &ArgPattern, reader: &mut DefaultHasher)
    ensures { reader.new ≡ hasher_after reader.old (pattern_writes (argument_pattern_view pattern.now)) }
{
    match pattern {
        ArgPattern::Name(name) => read_name(name, reader),
        ArgPattern::Tuple(tuple) => {
            reader.write_u8(2);
            read_patterns(&tuple.tuples, reader);
        }
    }
}

#[cycle(pattern)]
fn read_patterns(several: &[ArgPattern], reader: &mut DefaultHasher)
    ensures { reader.new ≡ hasher_after reader.old (patterns_writes (argument_patterns_view several.now)) }
{
    for pattern in several {
        read_pattern(pattern, reader);
    }
    reader.write_u8(3);
}

fn read_terminal(terminal: &TerminalString, reader: &mut DefaultHasher)
    ensures { reader.new ≡ hasher_after reader.old (terminal_writes terminal.now) }
{
    match terminal {
        TerminalString::Literal(TerminalLiteral::Quoted(text)) => read_text(4, text, reader),
        TerminalString::Literal(TerminalLiteral::Regex(text)) => read_text(5, text, reader),
        TerminalString::Bare(text) => read_text(6, text, reader),
        TerminalString::Error => reader.write_u8(7),
    }
}

fn read_op(op: RepeatOp, reader: &mut DefaultHasher)
    ensures { reader.new ≡ hasher_after reader.old (op_writes op) }
{
    match op {
        RepeatOp::Star => reader.write_u8(8),
        RepeatOp::Plus => reader.write_u8(9),
        RepeatOp::Question => reader.write_u8(10),
        RepeatOp::Times(count) => {
            reader.write_u8(22);
            reader.write_u16(count);
        }
    }
}

#[cycle(symbol)]
fn read_symbol(symbol: &Symbol, reader: &mut DefaultHasher)
    ensures { reader.new ≡ hasher_after reader.old (part_writes (symbol_view symbol.now)) }
{
    read_kind(&symbol.kind, reader);
}

#[cycle(symbol)]
fn read_kind(kind: &SymbolKind, reader: &mut DefaultHasher)
    ensures { reader.new ≡ hasher_after reader.old (kind_writes (kind_view kind.now)) }
{
    match kind {
        SymbolKind::Nonterminal(name) => read_text(11, &name.0, reader),
        SymbolKind::AmbiguousId(name) => read_text(12, name, reader),
        SymbolKind::Terminal(terminal) => read_terminal(terminal, reader),
        SymbolKind::Expr(expr) => {
            reader.write_u8(13);
            read_row(&expr.symbols, reader);
        }
        SymbolKind::Macro(call) => {
            read_text(14, &call.name.0, reader);
            read_row(&call.args, reader);
        }
        SymbolKind::Repeat(repeat) => {
            read_op(repeat.op, reader);
            read_symbol(&repeat.symbol, reader);
        }
        SymbolKind::Choose(inner) => {
            reader.write_u8(15);
            read_symbol(inner, reader);
        }
        SymbolKind::Name(name, inner) => {
            reader.write_u8(16);
            read_name(name, reader);
            read_symbol(inner, reader);
        }
        SymbolKind::Tuple(tuple, inner) => {
            reader.write_u8(17);
            read_patterns(&tuple.tuples, reader);
            read_symbol(inner, reader);
        }
        SymbolKind::Lookahead => reader.write_u8(18),
        SymbolKind::Lookbehind => reader.write_u8(19),
        SymbolKind::Error => reader.write_u8(20),
    }
}

#[cycle(symbol)]
fn read_row(symbols: &[Symbol], reader: &mut DefaultHasher)
    ensures { reader.new ≡ hasher_after reader.old (parts_writes (parts_view symbols.now)) }
{
    for symbol in symbols {
        read_symbol(symbol, reader);
    }
    reader.write_u8(21);
}

fn read_alternative(alternative: &Alternative, reader: &mut DefaultHasher)
    ensures { reader.new ≡ hasher_after reader.old (alternative_writes (alternative_view alternative.now)) }
{
    read_row(&alternative.expr.symbols, reader);
}

fn read_alternatives(alternatives: &[Alternative], reader: &mut DefaultHasher)
    ensures { reader.new ≡ hasher_after reader.old (flat_map alternative_writes (map alternative_view alternatives.now)) }
{
    for alternative in alternatives {
        read_alternative(alternative, reader);
    }
}

fn read_item(item: &GrammarItem, reader: &mut DefaultHasher)
    ensures { reader.new ≡ hasher_after reader.old (item_writes (item_view item.now)) }
{
    match item {
        GrammarItem::Nonterminal(rule) => {
            rule.name.0.hash(reader);
            read_alternatives(&rule.alternatives, reader);
        }
        GrammarItem::MatchToken(_)
        | GrammarItem::ExternToken(_)
        | GrammarItem::InternToken(_)
        | GrammarItem::Use(_) => {}
    }
}

/// The hashes of a table for a grammar of these items: their seed is made of the names of its rules and the symbols of their
/// alternatives, macros included.
pub fn seeded_by(items: &[GrammarItem]) -> Seeded
    ensures { result.start ≡ seeded_after (reader_of_items (map item_view items.now)) }
{
    let mut reader = DefaultHasher::new();
    for item in items {
        read_item(item, &mut reader);
    }
    Seeded::after(reader)
}
