//! What the arguments ask for.
ghost use Rattle.std.specs.Prelude.{◌≡◌, ◌≢◌, ◌∷◌, ℕ, List, codes, map, string_bytes, IfOk, IsErrOf, MatchOption};
ghost use Rattle.lnorm_run.specs.declared.words.WordsError.TheVariants.{Usage};
ghost use Rattle.lexplain_run.specs.declared.words.Way.{Way};
ghost use Rattle.lexplain_run.specs.Words.{AsksForWay, AsksForNoWay, settings_asked, word_of};

use lalrpop_norm::lexer::CheckOnly;
use lalrpop_norm::normalize::Session;
use lnorm_run::words::{WordsError, asked_by};
use std::alloc::Global;

/// Which way trees go.
#[derive(Clone, Copy, Debug, PartialEq, Eq)]
pub enum Way {
    /// From a derivation tree of the lowered grammar to the written tree.
    Explain,
    /// From a written tree to its derivation tree.
    Lower,
    /// From two derivation trees to two written ones that show an ambiguity.
    Ambiguous,
}

/// What the arguments ask for.
#[derive(Drop)]
pub struct Asked {
    /// Which way.
    pub way: Way,
    /// The features that are on, and the limit of rounds.
    pub session: Session<CheckOnly>,
}

/// The name of the grammar's file, and what is asked for: the arguments are `explain`, `lower` or `ambiguous`, the name, and
/// options of `lnorm` but `--origins`. Errors: `Usage` where they are no such arguments, and only there; `Memory`.
pub fn asked_for(alloc: Global, words: &[String]) -> Result<(&str, Asked), WordsError>
    ensures ok { IfOk result (λ r. AsksForWay (map string_bytes words.now) r.1.way r.0.now (settings_asked r.1)) }
    ensures usage { IsErrOf result Usage → AsksForNoWay (map string_bytes words.now) }
{
    let [word, file, options @ ..] = words else {
        return Err(WordsError::Usage);
    };
    let Some(way) = way_of(word.as_str()) else {
        return Err(WordsError::Usage);
    };
    match asked_by(alloc, options) {
        Ok(asked) => {
            if asked.origins {
                return Err(WordsError::Usage);
            }
            let session = asked.session;
            Ok((file.as_str(), Asked { way, session }))
        }
        Err(error) => Err(error),
    }
}

/// The name of the grammar's file, and the options: the arguments are `grammar`, the name, and those. `None` if they are not.
pub fn grammar_asked(words: &[String]) -> Option<(&str, &[String])>
    ensures { MatchOption result
        ((file : List ℕ) (options : List (List ℕ)) → map string_bytes words.now ≢ codes "grammar" ∷ file ∷ options)
        (λ r. map string_bytes words.now ≡ codes "grammar" ∷ r.0.now ∷ map string_bytes r.1.now) }
{
    let [word, file, options @ ..] = words else {
        return None;
    };
    match word.as_str() {
        "grammar" => Some((file.as_str(), options)),
        _ => None,
    }
}

/// The way that this argument names.
fn way_of(word: &str) -> Option<Way>
    ensures { MatchOption result ((way : Way) → word_of way ≡ word.now → ⊥) (λ way. word.now ≡ word_of way) }
{
    match word {
        "explain" => Some(Way::Explain),
        "lower" => Some(Way::Lower),
        "ambiguous" => Some(Way::Ambiguous),
        _ => None,
    }
}
