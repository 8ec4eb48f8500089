//! Written grammars in JSON: the form of a grammar as JSON data, and its reader.
//!
//! A struct is an object with exactly its fields, a span `[from, to]`, a list an array, an option null or its content,
//! and a variant its name as a text, or an object whose one key is its name: over what it holds, over an array where
//! it holds several values, over an object where its fields have names. `grammar_form` of specs/ says it in full.
#![tactic(auto)]

ghost use Rattle.std.specs.Prelude.{◌≡◌, Some, IfOk, IsErrOf, false};
ghost use Rattle.serde_json.specs.Data.{Data};
ghost use Rattle.serde_json.specs.Read.{read};
ghost use Rattle.lalrpop_norm_tree.specs.Items.{grammar_view};
ghost use Rattle.lalrpop_norm_json.specs.ItemForms.{grammar_form, IsForm};
ghost use Rattle.lalrpop_norm_json.specs.Shapes as shape;
ghost use Rattle.lalrpop_norm_json.specs.Shapes.{is};

pub mod laws;
mod tree;

use json::{Reader, Scratch};
use json_records::{ReadError, next_token};
use lalrpop_norm_tree::grammar::parse_tree::Grammar;
use std::alloc::Global;

/// How deep arrays and objects nest at most in what `serde_json` reads.
const MAX_DEPTH: usize = 127;

/// Why a text gives no tree.
#[derive(Clone, Copy, Debug, PartialEq, Eq)]
pub enum TreeError {
    /// The text is not JSON, or its value has not the shape of a tree.
    NotATree,
    /// An allocation failed for the text or the tree.
    Memory,
}

impl From<ReadError> for TreeError {
    ghost use Rattle.std.specs.Prelude.{◌≡◌, ◌↔◌};
    ghost use Rattle.json_records.specs.declared.error.ReadError.TheVariants.{NotJson};
    ghost use Rattle.lalrpop_norm_json.specs.declared.TreeError.TheVariants.{NotATree};

    ghost from_gives = { λ e t. (t ≡ NotATree) ↔ (e ≡ NotJson) };

    fn from(error: ReadError) -> TreeError {
        match error {
            ReadError::NotJson => TreeError::NotATree,
            ReadError::Memory => TreeError::Memory,
        }
    }
}

/// The grammar whose form in JSON the text is: members in any order, blanks as JSON has them.
///
/// A grammar with an `InternToken` has no form. Of a key that an object repeats the last value counts. The text is read once, and
/// no value of JSON is made.
///
/// # Errors
///
/// `NotATree`: the text is not JSON (127 levels of arrays and objects are read), or its value has not the shape of a
/// grammar; so it is the form of no tree. `Memory`: an allocation failed for the grammar, or for the texts in it that have
/// escapes.
pub fn read_tree(alloc: Global, text: &str) -> Result<Grammar, TreeError>
    ensures ok { IfOk result (λ g. (d : Data) × (read text.now ≡ Some d) × (grammar_form (grammar_view g) ≡ Some d)) }
    ensures not { IsErrOf result TreeError.NotATree → (d : Data) → read text.now ≡ Some d → is shape.grammar d ≡ false }
    ensures form { IsErrOf result TreeError.NotATree → IsForm text.now → ⊥ }
{
    let mut scratch = Scratch::new(alloc);
    let Ok(mut reader) = Reader::new(text, &mut scratch) else {
        return Err(TreeError::Memory);
    };
    let first = next_token(&mut reader)?;
    let read = tree::grammar(alloc, first, &mut reader, MAX_DEPTH)?;
    if reader.next().is_some() {
        return Err(TreeError::NotATree);
    }
    match read {
        Some(grammar) => Ok(grammar),
        None => Err(TreeError::NotATree),
    }
}
