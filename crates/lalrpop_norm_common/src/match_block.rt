//! The catch-all of a match block.
ghost use Rattle.std.specs.Prelude.{◌≡◌, ◌<◌, ◌^◌, IfSome, map, option_map};
ghost use Rattle.lalrpop_norm_tree.specs.Items.{match_contents_view, match_token_view};
ghost use Rattle.lalrpop_norm_model.specs.Entries.{catch_all_in, has_catch_all, is_catch_all, last_catch_all};

use lalrpop_norm_tree::grammar::parse_tree::{MatchContents, MatchItem, MatchToken};

/// The precedence of the literals that the match block does not name, if it lets them in.
pub fn catch_all_of(block: Option<&MatchToken>) -> Option<usize>
    ensures precedence { result ≡ catch_all_in (option_map (λ m. match_token_view m.now) block.entry) }
    ensures small { IfSome result (λ p. p < 2 ^ 63) }
{
    match block {
        Some(block) => last_catch_all(&block.contents),
        None => Some(0),
    }
}

fn last_catch_all(groups: &[MatchContents]) -> Option<usize>
    ensures precedence { result ≡ last_catch_all (map match_contents_view groups.now) }
    ensures small { IfSome result (λ p. p < 2 ^ 63) }
{
    let mut last = None;
    for index in 0..groups.len() {
        if has_catch_all(&groups[index].items) {
            last = Some(groups.len() - index);
        }
    }
    last
}

fn has_catch_all(items: &[MatchItem]) -> bool
    ensures { result ≡ has_catch_all items.now }
{
    for item in items {
        if is_catch_all(item) {
            return true;
        }
    }
    false
}

fn is_catch_all(item: &MatchItem) -> bool
    ensures { result ≡ is_catch_all item.now }
{
    match item {
        MatchItem::CatchAll(_) => true,
        MatchItem::Unmapped(_, _) | MatchItem::Mapped(_, _, _) => false,
    }
}
