//! Origins of alternatives and of productions.
ghost use Rattle.std.specs.Prelude.{◌≡◌, ⊤};

use lalrpop_norm_tree::grammar::parse_tree::NonterminalString;
use std::alloc::AllocError;

/// Where an alternative or a production comes from.
#[derive(Debug, PartialEq, Eq, Drop)]
pub enum Origin {
    /// A start symbol, over its rule.
    Start,
    /// An alternative of a rule or macro, by its written index, from 0, disabled ones counted; of each of the levels of a rule it
    /// names the rule.
    Written {
        rule: NonterminalString,
        alternative: usize,
    },
    /// The step from a level to the one below.
    LevelStep,
    /// A group.
    Group,
    /// `X*`: nothing.
    StarEmpty,
    /// `X*`: what `X+` is.
    StarSome,
    /// `X+`: one.
    PlusOne,
    /// `X+`: one more.
    PlusMore,
    /// `X?`: one.
    QuestionSome,
    /// `X?`: nothing.
    QuestionEmpty,
    /// `X{n}`: each time.
    Times,
    /// `@L`.
    Lookahead,
    /// `@R`.
    Lookbehind,
}

impl Origin {
    /// A copy, without an allocation.
    pub fn again(&self) -> Origin
        ensures { result ≡ self.now }
    {
        match self {
            Origin::Start => Origin::Start,
            Origin::Written { rule, alternative } => Origin::Written {
                rule: NonterminalString(rule.0.again()),
                alternative: *alternative,
            },
            Origin::LevelStep => Origin::LevelStep,
            Origin::Group => Origin::Group,
            Origin::StarEmpty => Origin::StarEmpty,
            Origin::StarSome => Origin::StarSome,
            Origin::PlusOne => Origin::PlusOne,
            Origin::PlusMore => Origin::PlusMore,
            Origin::QuestionSome => Origin::QuestionSome,
            Origin::QuestionEmpty => Origin::QuestionEmpty,
            Origin::Times => Origin::Times,
            Origin::Lookahead => Origin::Lookahead,
            Origin::Lookbehind => Origin::Lookbehind,
        }
    }
}

impl Clone for Origin {
    ghost is_clone = { λ a b. b ≡ a };

    ghost is_infallible = { λ _. ⊤ };

    fn clone(&self) -> Result<Origin, AllocError> {
        Ok(self.again())
    }
}
