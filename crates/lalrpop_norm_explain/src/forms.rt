//! What generated rules were generated for (groups, repeats, location symbols), read off their first origins.
ghost use Rattle.std.specs.Prelude.{◌≡◌, option_map};
ghost use Rattle.lalrpop_norm_explain.specs.TracedGrammars.{grammar_of};
ghost use Rattle.lalrpop_norm_explain.specs.Forms.{form_of, form_view, star_second};

use crate::traced::Traced;
use lalrpop_norm_origins::Origin;
use lalrpop_norm_repr::grammar::repr::Symbol;
use lalrpop_norm_tree_names::names::NonterminalString;

/// What a rule was generated for.
#[derive(Drop)]
pub(crate) enum Form<'a> {
    Group(&'a [Symbol]),
    Star(&'a NonterminalString),
    Plus(&'a Symbol),
    Question(&'a Symbol),
    Times(&'a [Symbol]),
    Ahead,
    Behind,
}

/// What the rule of a name was generated for, if it was generated.
pub(crate) fn form_named<'a>(traced: &'a Traced, name: &NonterminalString) -> Option<Form<'a>>
    ensures { option_map form_view result ≡ form_of (grammar_of traced.now name.now.0) }
{
    let (symbols, origin) = traced.production(name, 0)?;
    match origin {
        Origin::Group => Some(Form::Group(symbols)),
        Origin::StarEmpty => star_over(traced, name),
        Origin::PlusOne => Some(Form::Plus(symbols.first()?)),
        Origin::QuestionSome => Some(Form::Question(symbols.first()?)),
        Origin::Times => Some(Form::Times(symbols)),
        Origin::Lookahead => Some(Form::Ahead),
        Origin::Lookbehind => Some(Form::Behind),
        Origin::Start
        | Origin::Written { .. }
        | Origin::LevelStep
        | Origin::StarSome
        | Origin::PlusMore
        | Origin::QuestionEmpty => None,
    }
}

fn star_over<'a>(traced: &'a Traced, name: &NonterminalString) -> Option<Form<'a>>
    ensures { option_map form_view result ≡ star_second (grammar_of traced.now name.now.0) }
{
    let (symbols, _) = traced.production(name, 1)?;
    match symbols.first()? {
        Symbol::Nonterminal(more) => Some(Form::Star(more)),
        Symbol::Terminal(_) => None,
    }
}
