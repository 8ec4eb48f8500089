//! The types of tokens, locations and errors, and of terminals that entries name.
ghost use Rattle.std.specs.Prelude.{◌≡◌, [], ◌∷◌, None, IfOk, OnOk, map, option_map, codes};
ghost use Rattle.lalrpop_norm_tree_parts.specs.Accessors.{path_of};
ghost use Rattle.lalrpop_norm_tree.specs.Accessors.{first_of, type_named};
ghost use Rattle.lalrpop_norm_tree.specs.Items.{extern_token_view, grammar_view};
ghost use Rattle.lalrpop_norm_tree.specs.LoweredTypes.{repr_of};
ghost use Rattle.lalrpop_norm_tree_parts.specs.Reprs.{repr_view, reprs_view, applied_view, no_reprs, repr_and};
ghost use Rattle.lalrpop_norm_tree_parts.specs.Reprs.{of_lifetime, input_lifetime, input_str};
ghost use Rattle.lalrpop_norm_repr.specs.Tables.{type_table};
ghost use Rattle.lalrpop_norm_model.specs.Entries.{user_names};
ghost use Rattle.lalrpop_norm_model.specs.TerminalTypes.{declared_under, declared_location, token_type};
ghost use Rattle.lalrpop_norm_model.specs.TerminalTypes.{token_of_input, type_of_chosen, named_with};
ghost use Rattle.lalrpop_norm_tyinfer_steps.specs.TokenTypes.{AddsTerminals, rows_seen, base_table};

use crate::named::names_to_come;
use lalrpop_norm_repr::grammar::repr::{NominalTypeRepr, TypeRepr, Types};
use lalrpop_norm_tree::grammar::parse_tree::{
    Atom, ExternToken, Grammar, Lifetime, MatchEntry, MatchMapping, NoMemory, Path, TerminalString,
};
use std::alloc::Global;

/// A terminal with a type of its own.
pub type Row = (TerminalString, TypeRepr);

/// The table of the types of tokens, locations and errors, which lists only the error terminal.
pub fn base_types(alloc: Global, grammar: &Grammar) -> Result<Types, NoMemory>
    ensures { IfOk result (λ t. type_table t ≡ base_table (grammar_view grammar.now)) }
{
    let location = location_type(alloc, grammar)?;
    let error = declared_under(alloc, grammar, "Error")?;
    let token = token_type(alloc, grammar)?;
    Types::new(alloc, grammar.prefix.as_str(), location, error, token)
}

/// The type that the first extern block declares under a name.
fn declared_under(
    alloc: Global,
    grammar: &Grammar,
    name: &str,
) -> Result<Option<TypeRepr>, NoMemory>
    ensures { IfOk result (λ o. option_map repr_view o ≡ declared_under name.now (grammar_view grammar.now)) }
{
    match grammar.extern_token() {
        Some(token) => declared_in(alloc, token, name),
        None => Ok(None),
    }
}

/// The type that an extern block declares under a name.
fn declared_in(alloc: Global, token: &ExternToken, name: &str) -> Result<Option<TypeRepr>, NoMemory>
    ensures { IfOk result (λ o. option_map repr_view o
        ≡ option_map (λ t. repr_of t.type_ref) (first_of (type_named name.now) (extern_token_view token.now).associated_types)) }
{
    match token.associated_type(name) {
        Some(declared) => Ok(Some(declared.type_ref.lowered(alloc)?)),
        None => Ok(None),
    }
}

fn location_type(alloc: Global, grammar: &Grammar) -> Result<Option<TypeRepr>, NoMemory>
    ensures { IfOk result (λ o. option_map repr_view o ≡ declared_location (grammar_view grammar.now)) }
{
    match grammar.enum_token() {
        Some(_) => declared_under(alloc, grammar, "Location"),
        None => Ok(Some(TypeRepr::usize(alloc)?)),
    }
}

fn token_type(alloc: Global, grammar: &Grammar) -> Result<TypeRepr, NoMemory>
    ensures { IfOk result (λ t. repr_view t ≡ token_type (grammar_view grammar.now)) }
{
    match grammar.enum_token() {
        Some(tokens) => tokens.type_name.lowered(alloc),
        None => token_of_input(alloc),
    }
}

/// `Token<'input>`.
fn token_of_input(alloc: Global) -> Result<TypeRepr, NoMemory>
    ensures { IfOk result (λ t. repr_view t ≡ token_of_input) }
{
    let applied = token_path(alloc)?;
    Ok(TypeRepr::Nominal(applied))
}

fn token_path(alloc: Global) -> Result<NominalTypeRepr, NoMemory>
    ensures { IfOk result (λ n. applied_view n ≡ (path_of (codes "Token" ∷ []), repr_and (of_lifetime input_lifetime) no_reprs)) }
{
    let path = Path::from_id(alloc, Atom::new(alloc, "Token")?)?;
    let types = input_arguments(alloc)?;
    Ok(NominalTypeRepr { path, types })
}

/// The arguments of a type that are only `'input`.
fn input_arguments(alloc: Global) -> Result<Vec<TypeRepr>, NoMemory>
    ensures { IfOk result (λ ts. reprs_view ts.items ≡ repr_and (of_lifetime input_lifetime) no_reprs) }
{
    let lifetime = Lifetime::input(alloc)?;
    let types = vec![in alloc; TypeRepr::Lifetime(lifetime)]?;
    Ok(types)
}

/// The rows of the entries that a grammar without internal tokens will have.
pub fn rows_to_come(alloc: Global, grammar: &Grammar) -> Result<Vec<Row>, NoMemory>
    ensures { IfOk result (λ rs. rows_seen rs.items ≡ map (λ t. (t, input_str)) (named_with None (grammar_view grammar.now))) }
{
    let names = names_to_come(alloc, grammar)?;
    text_rows(alloc, &names)
}

fn text_rows(alloc: Global, names: &[TerminalString]) -> Result<Vec<Row>, NoMemory>
    ensures { IfOk result (λ rs. rows_seen rs.items ≡ map (λ t. (t, input_str)) names.now) }
{
    let mut rows = Vec::with_capacity(alloc, names.len())?;
    for name in names {
        rows.push(text_row(alloc, name)?)?;
    }
    Ok(rows)
}

/// The rows of the entries of internal tokens.
pub fn entry_rows(alloc: Global, entries: &[MatchEntry]) -> Result<Vec<Row>, NoMemory>
    ensures { IfOk result (λ rs. rows_seen rs.items ≡ map (λ t. (t, input_str)) (user_names entries.now)) }
{
    let mut rows = Vec::with_capacity(alloc, entries.len())?;
    for entry in entries {
        match &entry.user_name {
            MatchMapping::Terminal(terminal) => { rows.push(text_row(alloc, terminal)?)? }
            MatchMapping::Skip => {}
        }
    }
    Ok(rows)
}

/// A named terminal, which has the type of its text.
fn text_row(alloc: Global, terminal: &TerminalString) -> Result<Row, NoMemory>
    ensures terminal { IfOk result (λ r. r.0 ≡ terminal.now) }
    ensures type_of_text { IfOk result (λ r. repr_view r.1 ≡ input_str) }
{
    let terminal = terminal.clone()?;
    Ok((terminal, TypeRepr::input_str(alloc)?))
}

/// One type bare, several as a tuple; nothing of none.
pub fn type_of_chosen(mut types: Vec<TypeRepr>) -> Option<TypeRepr>
    ensures { option_map repr_view result ≡ type_of_chosen (map repr_view types.items) }
{
    if types.len() > 1 {
        return Some(TypeRepr::Tuple(types));
    }
    types.pop()
}

/// Adds each row whose terminal is not listed yet.
pub fn add_rows(types: &mut Types, rows: Vec<Row>) -> Result<(), NoMemory>
    ensures { OnOk result (AddsTerminals (type_table types.old) (type_table types.new) (rows_seen rows.items)) }
{
    for row in rows {
        add_row(types, row)?;
    }
    Ok(())
}

fn add_row(types: &mut Types, row: Row) -> Result<(), NoMemory>
    ensures { OnOk result (AddsTerminals (type_table types.old) (type_table types.new) (rows_seen (row ∷ []))) }
{
    let (terminal, ty) = row;
    let is_listed = types.has_term_type(&terminal);
    if !is_listed {
        types.add_term_type(terminal, ty)?;
    }
    Ok(())
}
