//! The trees of the lines so far, the last ones on top.
ghost use Rattle.std.specs.Prelude.{◌≡◌, ◌<◌, ◌≢◌, [], ◌∷◌, ◌++◌, length, IfOk, IsErrOf};

use crate::read::LinesError;
use std::alloc::Global;

/// Takes the last trees, so many of them, in their order.
pub(crate) fn last_of<T: Drop>(
    alloc: Global,
    trees: &mut Vec<T>,
    count: usize,
) -> Result<Vec<T>, LinesError>
    ensures ok { IfOk result (λ last. (trees.old.items ≡ trees.new.items ++ last.items) × (length last.items ≡ count)) }
    ensures not { IsErrOf result LinesError.NotATree → length trees.old.items < count }
{
    let mut children = Vec::new(alloc);
    for _ in 0..count {
        match trees.pop() {
            Some(tree) => children.push(tree)?,
            None => return Err(LinesError::NotATree),
        }
    }
    children.reverse();
    Ok(children)
}

/// The tree, where there is one and no more.
pub(crate) fn only_one<T: Drop>(mut trees: Vec<T>) -> Result<T, LinesError>
    ensures ok { IfOk result (λ tree. trees.items ≡ tree ∷ []) }
    ensures not { IsErrOf result LinesError.NotATree → length trees.items ≢ 1 }
{
    match trees.pop() {
        Some(tree) => {
            if trees.is_empty() {
                Ok(tree)
            } else {
                Err(LinesError::NotATree)
            }
        }
        None => Err(LinesError::NotATree),
    }
}

/// The trees, where there are two and no more.
pub(crate) fn only_two<T: Drop>(mut trees: Vec<T>) -> Result<(T, T), LinesError>
    ensures ok { IfOk result (λ two. trees.items ≡ two.0 ∷ two.1 ∷ []) }
    ensures not { IsErrOf result LinesError.NotATree → length trees.items ≢ 2 }
{
    let Some(second) = trees.pop() else {
        return Err(LinesError::NotATree);
    };
    let first = only_one(trees)?;
    Ok((first, second))
}
