//! The lexer that arguments describe.
use crate::made::{atom, kept, made_of};
use crate::scripted_lexer::{Feature, Pair, Scripted};
use lalrpop_norm::normalize::Session;
use lalrpop_norm_lexer::lexer::NfaConstructionError;
use lalrpop_norm_tree::grammar::parse_tree::{Atom, NoMemory, TerminalLiteral};
use lnorm_run::words::WordsError;
use std::alloc::Global;

/// A session without features and with the limit 200, whose lexer rejects what the arguments name: `--bad TEXT` is no pattern,
/// the regex of a literal of the text of `--feature-of TEXT`, quoted or not, has a feature, the indexes of `--ambiguous I,J` are
/// ambiguous; an allocation fails for the regex of a literal of the text of `--unread TEXT`, and for an automaton of more regexes
/// than `--largest N` says. Errors: `Usage` where they are no such pairs; `Memory`.
pub(crate) fn scripted_session(
    alloc: Global,
    words: &[String],
) -> Result<Session<Scripted>, WordsError> {
    let mut lexer = Scripted {
        bad: Vec::new(alloc),
        features: Vec::new(alloc),
        ambiguous: Vec::new(alloc),
        unread: Vec::new(alloc),
        largest: usize::MAX,
    };
    let done = add_words(alloc, &mut lexer, words);
    Ok(Session {
        features: None,
        macro_recursion_limit: 200,
        lexer: kept(lexer, done)?,
    })
}

fn add_words(alloc: Global, lexer: &mut Scripted, words: &[String]) -> Result<(), WordsError> {
    let mut rest = words;
    while let [option, word, after @ ..] = rest {
        add_pair(alloc, lexer, option.as_str(), word.as_str())?;
        rest = after;
    }
    if rest.is_empty() {
        Ok(())
    } else {
        Err(WordsError::Usage)
    }
}

fn add_pair(
    alloc: Global,
    lexer: &mut Scripted,
    option: &str,
    word: &str,
) -> Result<(), WordsError> {
    match option {
        "--bad" => known(add_text(alloc, &mut lexer.bad, word)),
        "--feature-of" => known(add_features(alloc, &mut lexer.features, word)),
        "--ambiguous" => match pair_of(word) {
            Some(pair) => Ok(lexer.ambiguous.push(pair)?),
            None => Err(WordsError::Usage),
        },
        "--unread" => known(add_text(alloc, &mut lexer.unread, word)),
        "--largest" => match index_of(word) {
            Some(largest) => {
                lexer.largest = largest;
                Ok(())
            }
            None => Err(WordsError::Usage),
        },
        _ => Err(WordsError::Usage),
    }
}

/// What was done for arguments that are known.
fn known(done: Result<(), NoMemory>) -> Result<(), WordsError> {
    match done {
        Ok(()) => Ok(()),
        Err(NoMemory) => Err(WordsError::Memory),
    }
}

fn add_text(alloc: Global, texts: &mut Vec<Atom>, word: &str) -> Result<(), NoMemory> {
    Ok(texts.push(atom(alloc, word)?)?)
}

/// The literal of the text, quoted and as a pattern.
fn add_features(alloc: Global, features: &mut Vec<Feature>, word: &str) -> Result<(), NoMemory> {
    made_of(atom(alloc, word), |text| {
        add_feature(features, TerminalLiteral::Quoted(text.again()))?;
        add_feature(features, TerminalLiteral::Regex(text.again()))
    })
}

fn add_feature(features: &mut Vec<Feature>, literal: TerminalLiteral) -> Result<(), NoMemory> {
    let feature = Feature {
        literal,
        error: NfaConstructionError::LookAround,
    };
    Ok(features.push(feature)?)
}

/// Two indexes in decimal digits, with a comma between them.
fn pair_of(word: &str) -> Option<Pair> {
    let (first, second) = word.split_once(",")?;
    Some(Pair {
        first: index_of(first)?,
        second: index_of(second)?,
    })
}

fn index_of(word: &str) -> Option<usize> {
    if word.starts_with("+") {
        return None;
    }
    match word.parse::<usize>() {
        Ok(index) => Some(index),
        Err(_) => None,
    }
}
