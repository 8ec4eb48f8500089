//! A call of the library: the example that README.md names.
use crate::made::put_apart;
use crate::text::Text;
use lalrpop_norm::lexer::CheckOnly;
use lalrpop_norm::normalize::{NormFailure, Session, normalize};
use lalrpop_norm_json::read_tree;
use std::alloc::{AllocError, Global};

/// Writes how many productions each nonterminal has in the lowered grammar of a tree, or the fault of the tree with its span.
pub(crate) fn push_counts(alloc: Global, text: &mut String, json: &str) -> Result<(), AllocError> {
    let Ok(tree) = read_tree(alloc, json) else {
        return text.push_str("no tree\n");
    };
    let session = Session {
        features: None,
        macro_recursion_limit: 200,
        lexer: CheckOnly,
    };
    match normalize(alloc, &session, tree) {
        Ok(lowered) => {
            for (name, nonterminal) in &lowered.nonterminals {
                write!(text, "{name}: {}\n", nonterminal.productions.len())?;
            }
            Ok(())
        }
        Err(NormFailure::Refused(error)) => {
            write!(
                text,
                "{} at {}: {}\n",
                error.fault.code(),
                error.span.0,
                error.message
            )
        }
        Err(NormFailure::Memory) => text.push_str("out of memory\n"),
    }
}

/// Writes the counts for bytes, which are UTF-8 or no tree.
pub(crate) fn push_counts_of(alloc: Global, text: &mut Text, bytes: &[u8]) {
    match str::from_utf8(bytes) {
        Ok(json) => put_apart(alloc, text, |text| push_counts(alloc, text, json)),
        Err(_) => text.put("no tree\n"),
    }
}
