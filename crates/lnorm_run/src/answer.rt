//! The text for an input.
ghost use Rattle.std.specs.Prelude.{◌≡◌, true, false, IfOk, IfErr};
ghost use Rattle.lalrpop_norm_tree.specs.Items.{grammar_view};
ghost use Rattle.lnorm_run.specs.Answers.{IsAnswerIn, IsFormOf, IsTextIn};
ghost use Rattle.lnorm_run.specs.Halts.{Explains, Tells};
ghost use Rattle.lnorm_run.specs.declared.printing.Form.TheVariants.{Lines, Json};
ghost use Rattle.lnorm_run.specs.Settings.{Settings, settings_view};

use crate::printing::{Afterwards, Form, Printing, json_of, lines_of, traced_text_of};
use crate::words::Asked;
use lalrpop_norm::normalize::{
    NormFailure, normalize_rules, normalize_shared, normalize_shared_traced,
};
use lalrpop_norm_json::{TreeError, read_tree};
use lalrpop_norm_tree::grammar::parse_tree::Grammar;
use lnorm_streams::halt::Halt;
use std::alloc::Global;
use std::mem;

/// The text for the bytes that were read: that of the lowered grammar of the tree whose JSON form they are. The bytes are
/// dropped once the tree is read, and the lowered grammar behind the text, if that is asked for.
///
/// Errors: `NotATree` where they are the form of no tree; `Failed` with the first fault of the tree, or with a failed
/// allocation.
pub fn answer(
    alloc: Global,
    asked: &Asked,
    bytes: Vec<u8>,
    printing: Printing,
) -> Result<Vec<u8>, Halt>
    ensures ok { IfOk result (λ text. IsAnswerIn printing.form (settings_view asked.now) bytes.items text.items) }
    ensures err { IfErr result (Explains (settings_view asked.now) bytes.items) }
{
    let tree = tree_of(alloc, &bytes)?;
    drop(bytes);
    text_for(alloc, asked, tree, printing)
}

/// The text for a tree.
fn text_for(
    alloc: Global,
    asked: &Asked,
    tree: Grammar,
    printing: Printing,
) -> Result<Vec<u8>, Halt>
    ensures ok { IfOk result (λ text. IsTextIn printing.form (settings_view asked.now) (grammar_view tree) text.items) }
    ensures err { IfErr result (Tells (settings_view asked.now) (grammar_view tree)) }
{
    if asked.origins {
        traced_text(alloc, asked, tree, printing)
    } else {
        plain_text(alloc, asked, tree, printing)
    }
}

/// The text for a tree, without origins.
fn plain_text(
    alloc: Global,
    asked: &Asked,
    tree: Grammar,
    printing: Printing,
) -> Result<Vec<u8>, Halt>
    requires { asked.now.origins ≡ false }
    ensures ok { IfOk result (λ text. IsTextIn printing.form (settings_view asked.now) (grammar_view tree) text.items) }
    ensures err { IfErr result (Tells (settings_view asked.now) (grammar_view tree)) }
{
    match printing.form {
        Form::Lines => lines_text(alloc, asked, tree, printing.afterwards),
        Form::Json => json_text(alloc, asked, tree, printing.afterwards),
    }
}

/// The lines for a tree, without origins: no action function is made for them.
fn lines_text(
    alloc: Global,
    asked: &Asked,
    tree: Grammar,
    afterwards: Afterwards,
) -> Result<Vec<u8>, Halt>
    requires { asked.now.origins ≡ false }
    ensures ok { IfOk result (λ text. IsTextIn Lines (settings_view asked.now) (grammar_view tree) text.items) }
    ensures err { IfErr result (Tells (settings_view asked.now) (grammar_view tree)) }
{
    match normalize_rules(alloc, &asked.session, tree) {
        Ok(rules) => {
            let text = lines_of(alloc, &rules);
            put_away(rules, afterwards);
            text
        }
        Err(failure) => Err(Halt::Failed(failure)),
    }
}

/// The JSON for a tree, without origins.
fn json_text(
    alloc: Global,
    asked: &Asked,
    tree: Grammar,
    afterwards: Afterwards,
) -> Result<Vec<u8>, Halt>
    requires { asked.now.origins ≡ false }
    ensures ok { IfOk result (λ text. IsTextIn Json (settings_view asked.now) (grammar_view tree) text.items) }
    ensures err { IfErr result (Tells (settings_view asked.now) (grammar_view tree)) }
{
    match normalize_shared(alloc, &asked.session, tree) {
        Ok(lowered) => {
            let text = json_of(alloc, &lowered);
            put_away(lowered, afterwards);
            text
        }
        Err(error) => Err(Halt::Failed(error)),
    }
}

/// The text for a tree, with origins.
fn traced_text(
    alloc: Global,
    asked: &Asked,
    tree: Grammar,
    printing: Printing,
) -> Result<Vec<u8>, Halt>
    requires { asked.now.origins ≡ true }
    ensures ok { IfOk result (λ text. IsTextIn printing.form (settings_view asked.now) (grammar_view tree) text.items) }
    ensures err { IfErr result (Tells (settings_view asked.now) (grammar_view tree)) }
{
    match normalize_shared_traced(alloc, &asked.session, tree) {
        Ok(traced) => {
            let text = traced_text_of(alloc, printing.form, &traced);
            put_away(traced, printing.afterwards);
            text
        }
        Err(refused) => Err(Halt::Failed(refused)),
    }
}

/// Drops a value, or leaves it in memory.
fn put_away<T: Drop>(value: T, afterwards: Afterwards) {
    match afterwards {
        Afterwards::LetGo => drop(value),
        Afterwards::Left => mem::forget(value),
    }
}

/// The tree whose JSON form the bytes are.
fn tree_of(alloc: Global, bytes: &[u8]) -> Result<Grammar, Halt>
    ensures ok { IfOk result (λ g. IsFormOf (grammar_view g) bytes.now) }
    ensures err { IfErr result (λ h. (s : Settings) → Explains s bytes.now h) }
{
    tree_in(alloc, decoded(bytes)?)
}

/// The text that the bytes are.
fn decoded(bytes: &[u8]) -> Result<&str, Halt>
    ensures ok { IfOk result (λ text. text.now ≡ bytes.now) }
    ensures err { IfErr result (λ h. (s : Settings) → Explains s bytes.now h) }
{
    match str::from_utf8(bytes) {
        Ok(text) => Ok(text),
        Err(_) => Err(Halt::NotATree),
    }
}

/// The tree whose JSON form the text is.
fn tree_in(alloc: Global, text: &str) -> Result<Grammar, Halt>
    ensures ok { IfOk result (λ g. IsFormOf (grammar_view g) text.now) }
    ensures err { IfErr result (λ h. (s : Settings) → Explains s text.now h) }
{
    match read_tree(alloc, text) {
        Ok(tree) => Ok(tree),
        Err(TreeError::NotATree) => Err(Halt::NotATree),
        Err(TreeError::Memory) => Err(Halt::Failed(NormFailure::Memory)),
    }
}
