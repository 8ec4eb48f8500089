//! The arguments of a call, from one text.
ghost use Rattle.std.specs.Prelude.{◌≡◌, List, ℕ, map, string_bytes, IfOk, IsErrOf};
ghost use Rattle.lnorm_c.specs.Words.{AreWords};
ghost use Rattle.lnorm_run.specs.declared.words.WordsError.TheVariants.{Usage};

use lnorm_run::words::WordsError;
use std::alloc::Global;

/// The arguments in the text, each ended by a zero byte. Errors: `Usage` where it is not UTF-8 or the last one is not ended, and
/// only there; `Memory`.
pub(crate) fn words_in(alloc: Global, text: &[u8]) -> Result<Vec<String>, WordsError>
    ensures ok { IfOk result (λ words. AreWords text.now (map string_bytes words.items)) }
    ensures usage { IsErrOf result Usage → (words : List (List ℕ)) → AreWords text.now words → ⊥ }
{
    match str::from_utf8(text) {
        Ok(text) => words_of(alloc, text),
        Err(_) => Err(WordsError::Usage),
    }
}

/// The arguments in a text in UTF-8.
fn words_of(alloc: Global, text: &str) -> Result<Vec<String>, WordsError>
    ensures ok { IfOk result (λ words. AreWords text.now (map string_bytes words.items)) }
    ensures usage { IsErrOf result Usage → (words : List (List ℕ)) → AreWords text.now words → ⊥ }
{
    let mut words = Vec::new(alloc);
    let mut rest = text;
    while let Some((word, behind)) = rest.split_once('\0') {
        words.push(String::from_str(alloc, word)?)?;
        rest = behind;
    }
    if rest.is_empty() {
        Ok(words)
    } else {
        Err(WordsError::Usage)
    }
}
