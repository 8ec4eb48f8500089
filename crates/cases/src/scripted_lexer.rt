//! A lexer for tests, whose relations are lists.
ghost use Rattle.std.specs.Prelude.{◌≡◌};
ghost use Rattle.lalrpop_norm_model.specs.Terminals.{same_literal};

use lalrpop_norm_lexer::lexer::{
    DfaConstructionError, Lexer, NfaConstructionError, Precedence, RegexError,
};
use lalrpop_norm_tree::grammar::parse_tree::{Atom, Dfa, NoMemory, TerminalLiteral};
use std::alloc::Global;

/// Rejects what its lists name, and runs out of memory where they say so. Its regexes are the literals, and an automaton's code
/// is the list of precedences.
#[derive(Drop)]
pub struct Scripted {
    /// The texts that are no patterns.
    pub bad: Vec<Atom>,
    /// Literals whose regexes have a feature that is not supported.
    pub features: Vec<Feature>,
    /// Ambiguous pairs of indexes.
    pub ambiguous: Vec<Pair>,
    /// The texts for whose regexes an allocation fails.
    pub unread: Vec<Atom>,
    /// How many regexes an automaton may have before an allocation fails.
    pub largest: usize,
}

/// A literal whose regex has a feature.
#[derive(Drop)]
pub struct Feature {
    /// The literal.
    pub literal: TerminalLiteral,
    /// Its feature.
    pub error: NfaConstructionError,
}

/// Two indexes.
#[derive(Clone, Copy, Debug, PartialEq, Eq)]
pub struct Pair {
    /// One.
    pub first: usize,
    /// The other.
    pub second: usize,
}

impl Lexer for Scripted {
    ghost use Rattle.cases.specs.Scripted.{of_lists};

    type Regex = TerminalLiteral;

    ghost relations = { of_lists };

    fn parse_literal(&self, alloc: Global, text: &str) -> Result<TerminalLiteral, NoMemory> {
        if is_listed(&self.unread, text) {
            return Err(NoMemory);
        }
        Ok(TerminalLiteral::Quoted(Atom::new(alloc, text)?))
    }

    fn parse_regex(&self, alloc: Global, text: &str) -> Result<TerminalLiteral, RegexError> {
        if is_listed(&self.unread, text) {
            return Err(RegexError::Memory);
        }
        for bad in &self.bad {
            if bad.as_str() == text {
                return Err(RegexError::Refused {
                    message: format!(in alloc; "`{text}` is on the list of bad texts")?,
                });
            }
        }
        Ok(TerminalLiteral::Regex(Atom::new(alloc, text)?))
    }

    fn build_dfa(
        &self,
        alloc: Global,
        regexes: &[TerminalLiteral],
        precedences: &[Precedence],
    ) -> Result<Dfa, DfaConstructionError> {
        if let Some((index, error)) = self.first_feature(regexes) {
            return Err(DfaConstructionError::NfaConstructionError { index, error });
        }
        for pair in &self.ambiguous {
            if pair.first < regexes.len()
                && pair.second < regexes.len()
                && pair.first != pair.second
            {
                return Err(DfaConstructionError::Ambiguity {
                    match0: pair.first,
                    match1: pair.second,
                });
            }
        }
        if regexes.len() > self.largest {
            return Err(DfaConstructionError::Memory);
        }
        let mut code = Vec::new(alloc);
        for precedence in precedences {
            match u32::try_from(precedence.0) {
                Ok(number) => code.push(number)?,
                Err(_) => return Err(DfaConstructionError::Memory),
            }
        }
        Ok(Dfa { code })
    }
}

impl Scripted {
    ghost use Rattle.std.specs.Prelude.{IfSome};
    ghost use Rattle.lalrpop_norm_model.specs.Lexers.{HasFeatureAt};
    ghost use Rattle.lalrpop_norm_lexer.specs.Answers.{feature_of};
    ghost use Rattle.cases.specs.Scripted.{of_lists};

    /// The index of the first regex that has a feature, and the feature.
    fn first_feature(&self, regexes: &[TerminalLiteral]) -> Option<(usize, NfaConstructionError)>
        ensures { IfSome result (λ found.
            HasFeatureAt (of_lists self.now) regexes.now found.0 (feature_of found.1)) }
    {
        for index in 0..regexes.len() {
            for feature in &self.features {
                if is_same(&feature.literal, &regexes[index]) {
                    return Some((index, feature.error));
                }
            }
        }
        None
    }
}

/// Whether the literals are of one kind and have one text.
fn is_same(one: &TerminalLiteral, other: &TerminalLiteral) -> bool
    ensures { result ≡ same_literal one.now other.now }
{
    one == other
}

fn is_listed(texts: &[Atom], text: &str) -> bool {
    for listed in texts {
        if listed.as_str() == text {
            return true;
        }
    }
    false
}
