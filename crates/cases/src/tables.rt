//! Tables of types.
use crate::made::{push_after, push_debug, push_debug_line, push_line};
use crate::text::Text;
use lalrpop_norm_repr::grammar::repr::{TerminalString, TypeRepr, Types};
use shared_text::NoMemory;
use std::alloc::Global;

/// The types of the tokens, of what a parser answers where it fails, of the listed terminals and of the rules.
pub(crate) fn push_types(text: &mut Text, types: &Types) {
    text.show_line("token: ", types.terminal_token_type());
    text.debug_line("location: ", types.opt_terminal_loc_type());
    text.debug_line("error: ", types.opt_error_type());
    text.show_line("recovery: ", types.error_recovery_type());
    text.show_line("parse error: ", types.parse_error_type());
    text.debug_line("terminals: ", types.terminals());
    text.debug_line("rules: ", types.nonterminals());
}

/// What a table makes types of.
pub(crate) fn push_made_types(alloc: Global, text: &mut Text, types: &Types) {
    push_after(text, "location ", types.terminal_loc_type());
    push_after(text, ", error ", types.error_type());
    push_after(text, ", triple ", types.triple_type());
    push_line(text, ", spanned ", spanned(alloc, types));
    text.show_line(
        "error terminal ",
        types.terminal_type(&TerminalString::Error),
    );
    push_debug(text, "lists ", types.terminal_types());
    push_debug_line(text, " ", types.nonterminal_types());
}

fn spanned(alloc: Global, types: &Types) -> Result<TypeRepr, NoMemory> {
    types.spanned_type(TypeRepr::usize(alloc)?)
}
