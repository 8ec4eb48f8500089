//! Symbols.
ghost use Rattle.std.specs.Prelude.{codes};
ghost use Rattle.json_records.specs.Readers.{ReadsForm, ReadsUnder, ReadsList, NotJsonOnlyIfNoData, LeavesNoMore};
ghost use Rattle.lalrpop_norm_json.specs.Shapes as shape;
ghost use Rattle.lalrpop_norm_json.specs.Shapes.{is};
ghost use Rattle.lalrpop_norm_tree.specs.Symbols.{kind_view, symbol_view, expr_view};
ghost use Rattle.lalrpop_norm_json.specs.SymbolForms.{kind_form, part_form, group_form};

use super::Tree;
use super::symbol_reads::bare_kind;
use json::{Reader, Token};
use json_records::pairs::push;
use json_records::{
    ReadError, Reads, both, fitted, is_other, next_item, next_member, open_array, open_object, pass,
};
use lalrpop_norm_tree::grammar::parse_tree::{
    Atom, ExprSymbol, MacroSymbol, Name, NonterminalString, RepeatOp, RepeatSymbol, Span, Symbol,
    SymbolKind, TerminalString, Tuple,
};
use std::alloc::Global;

/// A symbol without its span.
#[cycle(symbol)]
pub(crate) fn kind<'a>(
    alloc: Global,
    first: Token<'a>,
    reader: &mut Reader<'a>,
    depth: usize,
) -> Result<Option<SymbolKind>, ReadError>
    ensures ok { ReadsForm result (λ k. kind_form (kind_view k)) (is shape.kind) depth first.entry reader.old reader.new }
    ensures err { NotJsonOnlyIfNoData result depth first.entry reader.old }
    ensures shorter { LeavesNoMore result reader.old reader.new }
{
    if let Token::String(name) = first {
        return Ok(bare_kind(name));
    }
    let Some(depth) = open_object(first, reader, depth)? else {
        return Ok(None);
    };
    let mut read = None;
    let mut before = None;
    let mut strays = false;
    while let Some((name, first)) = next_member(reader)? {
        if is_other(before, name) {
            pass(first, reader, depth)?;
            strays = true;
        } else {
            read = kind_of(alloc, name, first, reader, depth)?;
            before = Some(name);
        }
    }
    if strays {
        return Ok(None);
    }
    Ok(read)
}

/// The symbol of that variant, over a value.
#[cycle(symbol)]
fn kind_of<'a>(
    alloc: Global,
    name: &str,
    first: Token<'a>,
    reader: &mut Reader<'a>,
    depth: usize,
) -> Result<Option<SymbolKind>, ReadError>
    ensures ok { ReadsUnder result name.now (λ k. kind_form (kind_view k)) (is shape.kind) depth first.entry reader.old reader.new }
    ensures err { NotJsonOnlyIfNoData result depth first.entry reader.old }
    ensures shorter { LeavesNoMore result reader.old reader.new }
{
    match name {
        "Expr" => match group(alloc, first, reader, depth)? {
            Some(read) => Ok(Some(SymbolKind::Expr(read))),
            None => Ok(None),
        },
        "AmbiguousId" => match <Tree as Reads<Atom>>::read(alloc, first, reader, depth)? {
            Some(read) => Ok(Some(SymbolKind::AmbiguousId(read))),
            None => Ok(None),
        },
        "Terminal" => match <Tree as Reads<TerminalString>>::read(alloc, first, reader, depth)? {
            Some(read) => Ok(Some(SymbolKind::Terminal(read))),
            None => Ok(None),
        },
        "Nonterminal" => match <Tree as Reads<NonterminalString>>::read(
            alloc, first, reader, depth,
        )? {
            Some(read) => Ok(Some(SymbolKind::Nonterminal(read))),
            None => Ok(None),
        },
        "Macro" => called(alloc, first, reader, depth),
        "Repeat" => repeated(alloc, first, reader, depth),
        "Choose" => chosen(alloc, first, reader, depth),
        "Name" => named(alloc, first, reader, depth),
        "Tuple" => tupled(alloc, first, reader, depth),
        _ => {
            pass(first, reader, depth)?;
            Ok(None)
        }
    }
}

#[cycle(symbol)]
fn symbol<'a>(
    alloc: Global,
    first: Token<'a>,
    reader: &mut Reader<'a>,
    depth: usize,
) -> Result<Option<Symbol>, ReadError>
    ensures ok { ReadsForm result (λ s. part_form (symbol_view s)) (is shape.symbol) depth first.entry reader.old reader.new }
    ensures err { NotJsonOnlyIfNoData result depth first.entry reader.old }
    ensures shorter { LeavesNoMore result reader.old reader.new }
{
    let Some(depth) = open_object(first, reader, depth)? else {
        return Ok(None);
    };
    let mut of = None;
    let mut span = None;
    let mut strays = false;
    while let Some((key, first)) = next_member(reader)? {
        match key {
            "kind" => of = kind(alloc, first, reader, depth)?,
            "span" => span = <Tree as Reads<Span>>::read(alloc, first, reader, depth)?,
            _ => {
                pass(first, reader, depth)?;
                strays = true;
            }
        }
    }
    if strays {
        return Ok(None);
    }
    let Some(kind) = of else {
        return Ok(None);
    };
    let Some(span) = span else {
        return Ok(None);
    };
    Ok(Some(Symbol { span, kind }))
}

/// The call whose macro and arguments these are.
#[cycle(symbol)]
fn called<'a>(
    alloc: Global,
    first: Token<'a>,
    reader: &mut Reader<'a>,
    depth: usize,
) -> Result<Option<SymbolKind>, ReadError>
    ensures ok { ReadsUnder result (codes "Macro") (λ k. kind_form (kind_view k)) (is shape.kind) depth first.entry reader.old reader.new }
    ensures err { NotJsonOnlyIfNoData result depth first.entry reader.old }
    ensures shorter { LeavesNoMore result reader.old reader.new }
{
    let Some(depth) = open_object(first, reader, depth)? else {
        return Ok(None);
    };
    let mut args = None;
    let mut name = None;
    let mut strays = false;
    while let Some((key, first)) = next_member(reader)? {
        match key {
            "args" => args = symbols(alloc, first, reader, depth)?,
            "name" => name = <Tree as Reads<NonterminalString>>::read(alloc, first, reader, depth)?,
            _ => {
                pass(first, reader, depth)?;
                strays = true;
            }
        }
    }
    if strays {
        return Ok(None);
    }
    let Some(args) = args else {
        return Ok(None);
    };
    let Some(name) = name else {
        return Ok(None);
    };
    Ok(Some(SymbolKind::Macro(MacroSymbol { name, args })))
}

/// The repeat whose operator and symbol these are.
#[cycle(symbol)]
fn repeated<'a>(
    alloc: Global,
    first: Token<'a>,
    reader: &mut Reader<'a>,
    depth: usize,
) -> Result<Option<SymbolKind>, ReadError>
    ensures ok { ReadsUnder result (codes "Repeat") (λ k. kind_form (kind_view k)) (is shape.kind) depth first.entry reader.old reader.new }
    ensures err { NotJsonOnlyIfNoData result depth first.entry reader.old }
    ensures shorter { LeavesNoMore result reader.old reader.new }
{
    let Some(depth) = open_object(first, reader, depth)? else {
        return Ok(None);
    };
    let mut op = None;
    let mut repeated = None;
    let mut strays = false;
    while let Some((key, first)) = next_member(reader)? {
        match key {
            "op" => op = <Tree as Reads<RepeatOp>>::read(alloc, first, reader, depth)?,
            "symbol" => repeated = symbol(alloc, first, reader, depth)?,
            _ => {
                pass(first, reader, depth)?;
                strays = true;
            }
        }
    }
    if strays {
        return Ok(None);
    }
    let Some(op) = op else {
        return Ok(None);
    };
    let Some(repeated) = repeated else {
        return Ok(None);
    };
    Ok(Some(SymbolKind::Repeat(Box::new(
        alloc,
        RepeatSymbol {
            op,
            symbol: repeated,
        },
    )?)))
}

/// The selected symbol.
#[cycle(symbol)]
fn chosen<'a>(
    alloc: Global,
    first: Token<'a>,
    reader: &mut Reader<'a>,
    depth: usize,
) -> Result<Option<SymbolKind>, ReadError>
    ensures ok { ReadsUnder result (codes "Choose") (λ k. kind_form (kind_view k)) (is shape.kind) depth first.entry reader.old reader.new }
    ensures err { NotJsonOnlyIfNoData result depth first.entry reader.old }
    ensures shorter { LeavesNoMore result reader.old reader.new }
{
    match symbol(alloc, first, reader, depth)? {
        Some(symbol) => Ok(Some(SymbolKind::Choose(Box::new(alloc, symbol)?))),
        None => Ok(None),
    }
}

/// The symbol with a name.
#[cycle(symbol)]
fn named<'a>(
    alloc: Global,
    first: Token<'a>,
    reader: &mut Reader<'a>,
    depth: usize,
) -> Result<Option<SymbolKind>, ReadError>
    ensures ok { ReadsUnder result (codes "Name") (λ k. kind_form (kind_view k)) (is shape.kind) depth first.entry reader.old reader.new }
    ensures err { NotJsonOnlyIfNoData result depth first.entry reader.old }
    ensures shorter { LeavesNoMore result reader.old reader.new }
{
    let Some(depth) = open_array(first, reader, depth)? else {
        return Ok(None);
    };
    let mut names = None;
    let mut of = None;
    let mut place = 0usize;
    while let Some(first) = next_item(reader)? {
        match place {
            0 => {
                names = <Tree as Reads<Name>>::read(alloc, first, reader, depth)?;
                place = 1;
            }
            1 => {
                of = symbol(alloc, first, reader, depth)?;
                place = 2;
            }
            _ => {
                pass(first, reader, depth)?;
                place = 3;
            }
        }
    }
    if place != 2 {
        return Ok(None);
    }
    match both(names, of) {
        Some((names, symbol)) => Ok(Some(SymbolKind::Name(names, Box::new(alloc, symbol)?))),
        None => Ok(None),
    }
}

/// The symbol whose value is a tuple with names for its parts.
#[cycle(symbol)]
fn tupled<'a>(
    alloc: Global,
    first: Token<'a>,
    reader: &mut Reader<'a>,
    depth: usize,
) -> Result<Option<SymbolKind>, ReadError>
    ensures ok { ReadsUnder result (codes "Tuple") (λ k. kind_form (kind_view k)) (is shape.kind) depth first.entry reader.old reader.new }
    ensures err { NotJsonOnlyIfNoData result depth first.entry reader.old }
    ensures shorter { LeavesNoMore result reader.old reader.new }
{
    let Some(depth) = open_array(first, reader, depth)? else {
        return Ok(None);
    };
    let mut names = None;
    let mut of = None;
    let mut place = 0usize;
    while let Some(first) = next_item(reader)? {
        match place {
            0 => {
                names = <Tree as Reads<Tuple>>::read(alloc, first, reader, depth)?;
                place = 1;
            }
            1 => {
                of = symbol(alloc, first, reader, depth)?;
                place = 2;
            }
            _ => {
                pass(first, reader, depth)?;
                place = 3;
            }
        }
    }
    if place != 2 {
        return Ok(None);
    }
    match both(names, of) {
        Some((names, symbol)) => Ok(Some(SymbolKind::Tuple(names, Box::new(alloc, symbol)?))),
        None => Ok(None),
    }
}

/// Symbols in a row.
#[cycle(symbol)]
pub(crate) fn group<'a>(
    alloc: Global,
    first: Token<'a>,
    reader: &mut Reader<'a>,
    depth: usize,
) -> Result<Option<ExprSymbol>, ReadError>
    ensures ok { ReadsForm result (λ e. group_form (expr_view e)) (is shape.group) depth first.entry reader.old reader.new }
    ensures err { NotJsonOnlyIfNoData result depth first.entry reader.old }
    ensures shorter { LeavesNoMore result reader.old reader.new }
{
    let Some(depth) = open_object(first, reader, depth)? else {
        return Ok(None);
    };
    let mut list = None;
    let mut strays = false;
    while let Some((key, first)) = next_member(reader)? {
        match key {
            "symbols" => list = symbols(alloc, first, reader, depth)?,
            _ => {
                pass(first, reader, depth)?;
                strays = true;
            }
        }
    }
    if strays {
        return Ok(None);
    }
    let Some(list) = list else {
        return Ok(None);
    };
    Ok(Some(ExprSymbol { symbols: list }))
}

#[cycle(symbol)]
fn symbols<'a>(
    alloc: Global,
    first: Token<'a>,
    reader: &mut Reader<'a>,
    depth: usize,
) -> Result<Option<Vec<Symbol>>, ReadError>
    ensures ok { ReadsList result (λ s. part_form (symbol_view s)) (is shape.symbol) depth first.entry reader.old reader.new }
    ensures err { NotJsonOnlyIfNoData result depth first.entry reader.old }
    ensures shorter { LeavesNoMore result reader.old reader.new }
{
    let Some(depth) = open_array(first, reader, depth)? else {
        return Ok(None);
    };
    let mut list = Vec::new(alloc);
    let mut good = true;
    while let Some(first) = next_item(reader)? {
        match symbol(alloc, first, reader, depth)? {
            Some(item) => push(&mut list, item)?,
            None => good = false,
        }
    }
    if good {
        Ok(Some(fitted(list)?))
    } else {
        Ok(None)
    }
}
