//! The environment of a macro: what its arguments are bound to, by ids.
ghost use Rattle.std.specs.Prelude.{◌≡◌, option_map};
ghost use Rattle.lalrpop_norm_tree.specs.Symbols.{kind_view};
ghost use Rattle.lalrpop_norm_nodes.specs.Given.{given_in, given_to};

use lalrpop_norm_names::Names;
use lalrpop_norm_tree::grammar::parse_tree::{
    GrammarSymbol, NonterminalString, Symbol, SymbolKind,
};

/// What a call binds an argument to (`given`).
#[derive(Drop)]
pub struct Given {
    /// The id of its node.
    pub number: usize,
    /// The rewritten symbol, where the call was first reached.
    pub symbol: Symbol,
}

/// The environment of a call: the indices of the arguments of a macro's definition, by their names, and what a call binds them
/// to.
#[derive(Clone, Copy)]
pub struct Environment<'a> {
    /// The index of each argument: the first index of its name.
    pub numbers: &'a Names,
    /// What they are bound to, in order.
    pub given: &'a [Given],
}

/// What a name is bound to, if it is that of an argument.
pub fn given_in<'a>(environment: &Environment<'a>, name: &NonterminalString) -> Option<&'a Given>
    ensures { option_map (λ g. g.now) result ≡ given_in environment.now name.now.0 }
{
    // No name needs a hash in most rules, where the environment is empty.
    if environment.given.is_empty() {
        return None;
    }
    let place = environment.numbers.number(name)?;
    environment.given.get(place)
}

/// What a symbol is bound to, if it is an argument's name.
pub fn given_to<'a>(environment: &Environment<'a>, kind: &SymbolKind) -> Option<&'a Given>
    ensures { option_map (λ g. g.now) result ≡ given_to environment.now (kind_view kind.now) }
{
    match kind.as_grammar_symbol() {
        Some(GrammarSymbol::Nonterminal(name)) => given_in(environment, name),
        Some(GrammarSymbol::Terminal(_)) | Some(GrammarSymbol::Error) | None => None,
    }
}
