//! What lines say: the tree again.
ghost use Rattle.std.specs.Prelude.{◌≡◌, ◌++◌, List, ℕ};
ghost use Rattle.lalrpop_norm_theory.specs.LoweredTrees as lowered;
ghost use Rattle.lalrpop_norm_theory.specs.WrittenTrees as written;
ghost use Rattle.lexplain_lines.specs.Laws.{LoweredHasWords, WrittenHasWords};
ghost use Rattle.lexplain_lines.specs.LineForms.{AreLines, lowered_forms, written_forms};
ghost use Rattle.lexplain_lines.specs.TreeLines.{lowered_lines, written_lines};

/// If a text is the lines of two written trees, then they are the same.
pub fn lines_are_of_one_written_tree()
    ensures { (text : List ℕ) (t r : written.WrittenTree) → AreLines text (written_forms t) → AreLines text (written_forms r) → t ≡ r }
{}

/// If a text is the lines of two lowered trees, then they are the same.
pub fn lines_are_of_one_lowered_tree()
    ensures { (text : List ℕ) (u v : lowered.LoweredTree) → AreLines text (lowered_forms u) → AreLines text (lowered_forms v) → u ≡ v }
{}

/// If a text is the lines of two lowered trees, one behind the other, then it is so of no other two.
pub fn lines_are_of_one_pair_of_lowered_trees()
    ensures { (text : List ℕ) (u v w x : lowered.LoweredTree) → AreLines text (lowered_forms u ++ lowered_forms v)
        → AreLines text (lowered_forms w ++ lowered_forms x) → (u ≡ w) × (v ≡ x) }
{}

/// Round trip: if each number of a written tree is below 2^64, then the text that is written for it is its lines.
pub fn written_lines_read_back()
    ensures { (t : written.WrittenTree) → WrittenHasWords t → AreLines (written_lines t) (written_forms t) }
{}

/// Round trip: if each number of a lowered tree is below 2^64, then the text that is written for it is its lines.
pub fn lowered_lines_read_back()
    ensures { (u : lowered.LoweredTree) → LoweredHasWords u → AreLines (lowered_lines u) (lowered_forms u) }
{}

/// Round trip: if each number of two lowered trees is below 2^64, then the texts that are written for them, one behind the other, are
/// their lines.
pub fn two_lowered_trees_read_back()
    ensures { (u v : lowered.LoweredTree) → LoweredHasWords u → LoweredHasWords v
        → AreLines (lowered_lines u ++ lowered_lines v) (lowered_forms u ++ lowered_forms v) }
{}

/// If each number in them is below 2^64, then two written trees of one text are the same.
pub fn written_trees_of_one_text_are_one()
    ensures { (t r : written.WrittenTree) → WrittenHasWords t → WrittenHasWords r → written_lines t ≡ written_lines r → t ≡ r }
{}

/// If each number in them is below 2^64, then two lowered trees of one text are the same.
pub fn lowered_trees_of_one_text_are_one()
    ensures { (u v : lowered.LoweredTree) → LoweredHasWords u → LoweredHasWords v → lowered_lines u ≡ lowered_lines v → u ≡ v }
{}
