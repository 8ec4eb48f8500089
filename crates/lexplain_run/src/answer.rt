//! The answers of the program.
ghost use Rattle.std.specs.Prelude.{◌≡◌, ◌⊎◌, ℕ, List, IfOk, IfErr, IsErrOf, string_bytes};
ghost use Rattle.lalrpop_norm_tree.specs.Items.{grammar_view};
ghost use Rattle.lalrpop_norm_faults.specs.declared.failure.NormFailure.TheVariants.{Memory};
ghost use Rattle.lalrpop_norm_common.specs.Sessions.{features_view};
ghost use Rattle.lalrpop_norm_explain.specs.Trees.{lowered_view, written_view};
ghost use Rattle.lnorm_run.specs.Answers.{IsFormOf};
ghost use Rattle.lnorm_run.specs.Settings.{Settings};
ghost use Rattle.lexplain_run.specs.Answers.{ExplainsTree, IsTranslationOver, LowersTree};
ghost use Rattle.lexplain_run.specs.Refusals.{StopsExplaining, StopsLowering, StopsOver};
ghost use Rattle.lexplain_run.specs.Runs.{StopsOverBytes};
ghost use Rattle.lexplain_run.specs.Words.{settings_asked, settings_in};
ghost use Rattle.lexplain_run.specs.declared.words.Way.{Way};
ghost use Rattle.lexplain_run.specs.declared.answer.Stop.TheVariants.{NotATree, Failed};

use crate::ambiguous::ambiguous;
use crate::words::{Asked, Way};
use lalrpop_norm::explain::{ExplainError, LoweredTree, WrittenTree, explain, lower_tree};
use lalrpop_norm::lexer::CheckOnly;
use lalrpop_norm::normalize::{NormFailure, Session, normalize_traced};
use lalrpop_norm_ambiguity::AmbiguityError;
use lalrpop_norm_json::{TreeError, read_tree};
use lalrpop_norm_tree::grammar::parse_tree::Grammar;
use lexplain_lines::lines::{lowered_lines, written_lines};
use lexplain_lines::read::{
    LinesError, lowered_tree_of_lines, two_lowered_trees_of_lines, written_tree_of_lines,
};
use std::alloc::{AllocError, Global};

/// Why there is no answer.
#[derive(Drop)]
pub enum Stop {
    /// The grammar's text is no tree of a grammar.
    NotAGrammar,
    /// The lines are no tree, or no two.
    NotATree,
    /// The grammar has a fault, or an allocation failed.
    Failed(NormFailure),
    /// The tree has a fault.
    Tree(ExplainError),
    /// The two trees show no ambiguity.
    Trees(AmbiguityError),
}

impl From<AllocError> for Stop {
    ghost use Rattle.lalrpop_norm_faults.specs.declared.failure.NormFailure.TheVariants.{Memory};
    ghost use Rattle.lexplain_run.specs.declared.answer.Stop.TheVariants.{Failed};

    ghost from_gives = { λ _ s. s ≡ Failed Memory };

    fn from(_: AllocError) -> Stop {
        Stop::Failed(NormFailure::Memory)
    }
}

impl From<NormFailure> for Stop {
    ghost use Rattle.lexplain_run.specs.declared.answer.Stop.TheVariants.{Failed};

    ghost from_gives = { λ failure s. s ≡ Failed failure };

    fn from(failure: NormFailure) -> Stop {
        Stop::Failed(failure)
    }
}

impl From<ExplainError> for Stop {
    ghost use Rattle.lexplain_run.specs.declared.answer.Stop.TheVariants.{Tree};

    ghost from_gives = { λ error s. s ≡ Tree error };

    fn from(error: ExplainError) -> Stop {
        Stop::Tree(error)
    }
}

impl From<AmbiguityError> for Stop {
    ghost use Rattle.lexplain_run.specs.declared.answer.Stop.TheVariants.{Trees};

    ghost from_gives = { λ error s. s ≡ Trees error };

    fn from(error: AmbiguityError) -> Stop {
        Stop::Trees(error)
    }
}

/// The lines that are asked for, of the tree or the two trees that `lines` make, in the grammar whose JSON the first text is.
///
/// Errors: `NotAGrammar` where it is that of none; `NotATree`; else those of [`explained`], [`lowered`] or [`ambiguous`]; a failed
/// allocation.
pub fn answer(alloc: Global, asked: &Asked, grammar: &str, lines: &str) -> Result<String, Stop>
    // The text is right for the grammar whose form the first text is, and the tree, or the two, whose lines the second one is.
    ensures ok { IfOk result (λ text. IsTranslationOver asked.now.way (features_view asked.now.session.features)
        grammar.now lines.now (string_bytes text)) }
    // That a text is none is said only where it is; else a fault is that of the grammar, or of the trees in it.
    ensures err { IfErr result (StopsOver asked.now.way (settings_asked asked.now) grammar.now lines.now) }
{
    let grammar = grammar_in(alloc, grammar)?;
    match asked.way {
        Way::Explain => {
            let tree = read(lowered_tree_of_lines(alloc, lines))?;
            explained(alloc, &asked.session, grammar, &tree)
        }
        Way::Lower => {
            let tree = read(written_tree_of_lines(alloc, lines))?;
            lowered(alloc, &asked.session, grammar, &tree)
        }
        Way::Ambiguous => {
            let trees = read(two_lowered_trees_of_lines(alloc, lines))?;
            ambiguous(alloc, &asked.session, grammar, &trees.0, &trees.1)
        }
    }
}

/// The grammar whose JSON form the text is.
pub(crate) fn grammar_in(alloc: Global, text: &str) -> Result<Grammar, Stop>
    ensures ok { IfOk result (λ g. IsFormOf (grammar_view g) text.now) }
    // An error says the same of lines that are any bytes.
    ensures bytes { IfErr result (λ stop. (way : Way) (s : Settings) (lines : List ℕ) → StopsOverBytes way s text.now lines stop) }
    ensures err { IfErr result (λ stop. (way : Way) (s : Settings) (lines : List ℕ) → StopsOver way s text.now lines stop) }
{
    match read_tree(alloc, text) {
        Ok(grammar) => Ok(grammar),
        Err(TreeError::NotATree) => Err(Stop::NotAGrammar),
        Err(TreeError::Memory) => Err(Stop::Failed(NormFailure::Memory)),
    }
}

/// The tree that was read.
fn read<T: Drop>(tree: Result<T, LinesError>) -> Result<T, Stop>
    ensures ok { IfOk result (λ read. tree ≡ Ok read) }
    ensures err { IfErr result (λ stop. ((stop ≡ NotATree) × IsErrOf tree LinesError.NotATree) ⊎ (stop ≡ Failed Memory)) }
{
    match tree {
        Ok(tree) => Ok(tree),
        Err(LinesError::NotATree) => Err(Stop::NotATree),
        Err(LinesError::Memory) => Err(Stop::Failed(NormFailure::Memory)),
    }
}

/// The lines of the written tree that corresponds to a derivation tree of the lowered grammar.
///
/// Errors: `Failed` with the first fault of the grammar, or F42 at a pattern without a reading by `regex`; `Tree` with the first
/// fault of the tree, if no written tree corresponds to it; a failed allocation.
pub fn explained(
    alloc: Global,
    session: &Session<CheckOnly>,
    grammar: Grammar,
    tree: &LoweredTree,
) -> Result<String, Stop>
    ensures ok { IfOk result (λ text. ExplainsTree (features_view session.now.features) (grammar_view grammar)
        (lowered_view tree.now) (string_bytes text)) }
    ensures err { IfErr result (StopsExplaining (settings_in session.now) (grammar_view grammar) (lowered_view tree.now)) }
{
    let traced = normalize_traced(alloc, session, grammar)?;
    let written = explain(alloc, &traced, tree)?;
    Ok(written_lines(alloc, &written)?)
}

/// The lines of the derivation tree of the lowered grammar that corresponds to a written tree.
///
/// Errors: those of [`explained`], `Tree` if no derivation tree corresponds to the written one.
pub fn lowered(
    alloc: Global,
    session: &Session<CheckOnly>,
    grammar: Grammar,
    tree: &WrittenTree,
) -> Result<String, Stop>
    ensures ok { IfOk result (λ text. LowersTree (features_view session.now.features) (grammar_view grammar)
        (written_view tree.now) (string_bytes text)) }
    ensures err { IfErr result (StopsLowering (settings_in session.now) (grammar_view grammar) (written_view tree.now)) }
{
    let traced = normalize_traced(alloc, session, grammar)?;
    let derivation = lower_tree(alloc, &traced, tree)?;
    Ok(lowered_lines(alloc, &derivation)?)
}
