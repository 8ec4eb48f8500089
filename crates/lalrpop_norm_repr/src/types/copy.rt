//! Copies of type tables.
ghost use Rattle.std.specs.Prelude.{◌≡◌, IfOk, option_map};
ghost use Rattle.lalrpop_norm_tree_parts.specs.Reprs.{repr_view};
ghost use Rattle.lalrpop_norm_repr.specs.Tables.{rows, type_table};

use super::Types;
use lalrpop_norm_tree::grammar::parse_tree::{NonterminalString, TerminalString};
use lalrpop_norm_tree::grammar::repr::TypeRepr;
use lalrpop_norm_tree_parts::lowered::copy::copy_of;
use std::alloc::AllocError;
use std::collections::BTreeMap;

/// A type for each key.
type Rows<K> = BTreeMap<K, TypeRepr>;

impl Clone for Types {
    ghost is_clone = { λ a b. type_table b ≡ type_table a };

    fn clone(&self) -> Result<Types, AllocError> {
        copy_types(self)
    }
}

fn copy_types(types: &Types) -> Result<Types, AllocError>
    ensures { IfOk result (λ t. type_table t ≡ type_table types.now) }
{
    let failures = copy_failures(types)?;
    let rows = copy_rows(types)?;
    let declared = copy_declared(types)?;
    let (parse_error, recovery) = failures;
    let (terminals, nonterminals) = rows;
    let (token, location, error) = declared;
    Ok(Types {
        alloc: types.alloc,
        terminal_token_type: token,
        terminal_loc_type: location,
        error_type: error,
        terminal_types: terminals,
        nonterminal_types: nonterminals,
        parse_error_type: parse_error,
        error_recovery_type: recovery,
    })
}

/// The types of a failed parse and of the error terminal.
fn copy_failures(types: &Types) -> Result<(TypeRepr, TypeRepr), AllocError>
    ensures parse_error { IfOk result (λ f. repr_view f.0 ≡ repr_view types.now.parse_error_type) }
    ensures recovery { IfOk result (λ f. repr_view f.1 ≡ repr_view types.now.error_recovery_type) }
{
    let parse_error = types.parse_error_type.clone()?;
    let recovery = types.error_recovery_type.clone()?;
    Ok((parse_error, recovery))
}

/// The rows of terminals and of nonterminals.
fn copy_rows(types: &Types) -> Result<(Rows<TerminalString>, Rows<NonterminalString>), AllocError>
    ensures terminals { IfOk result (λ r. rows repr_view r.0 ≡ rows repr_view types.now.terminal_types) }
    ensures nonterminals { IfOk result (λ r. rows repr_view r.1 ≡ rows repr_view types.now.nonterminal_types) }
{
    let terminals = copy_terminals(&types.terminal_types)?;
    let nonterminals = copy_nonterminals(&types.nonterminal_types)?;
    Ok((terminals, nonterminals))
}

/// The types of a token, of a location and of the user's errors.
fn copy_declared(
    types: &Types,
) -> Result<(TypeRepr, Option<TypeRepr>, Option<TypeRepr>), AllocError>
    ensures token { IfOk result (λ d. repr_view d.0 ≡ repr_view types.now.terminal_token_type) }
    ensures location { IfOk result (λ d. option_map repr_view d.1 ≡ option_map repr_view types.now.terminal_loc_type) }
    ensures error { IfOk result (λ d. option_map repr_view d.2 ≡ option_map repr_view types.now.error_type) }
{
    let token = types.terminal_token_type.clone()?;
    let location = copy_of(types.terminal_loc_type.as_ref())?;
    let error = copy_of(types.error_type.as_ref())?;
    Ok((token, location, error))
}

fn copy_terminals(
    types: &BTreeMap<TerminalString, TypeRepr>,
) -> Result<BTreeMap<TerminalString, TypeRepr>, AllocError>
    ensures { IfOk result (λ m. rows repr_view m ≡ rows repr_view types.now) }
{
    let copy = types.clone()?;
    Ok(copy)
}

fn copy_nonterminals(
    types: &BTreeMap<NonterminalString, TypeRepr>,
) -> Result<BTreeMap<NonterminalString, TypeRepr>, AllocError>
    ensures { IfOk result (λ m. rows repr_view m ≡ rows repr_view types.now) }
{
    let copy = types.clone()?;
    Ok(copy)
}
