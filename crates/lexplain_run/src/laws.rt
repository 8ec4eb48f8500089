//! What the answers say: one for each input, and the tree again on the way back.
ghost use Rattle.std.specs.Prelude.{◌≡◌, List, ℕ};
ghost use Rattle.lalrpop_norm_model.specs.Features.{Features};
ghost use Rattle.lalrpop_norm_theory.specs.LoweredTrees as lowered;
ghost use Rattle.lalrpop_norm_theory.specs.WrittenTrees as written;
ghost use Rattle.lexplain_lines.specs.Laws.{LoweredHasWords, WrittenHasWords};
ghost use Rattle.lexplain_lines.specs.LineForms.{AreLines, lowered_forms, written_forms};
ghost use Rattle.lexplain_lines.specs.TreeLines.{lowered_lines, written_lines};
ghost use Rattle.lexplain_run.specs.Answers.{IsTranslationOver};
ghost use Rattle.lexplain_run.specs.declared.words.Way.{Way};
ghost use Rattle.lexplain_run.specs.declared.words.Way.TheVariants.{Explain, Lower};

/// For one grammar and one text of lines there is one answer at most.
pub fn answers_are_one()
    ensures { (way : Way) (fs : Features) (bytes lines text other : List ℕ) → IsTranslationOver way fs bytes lines text
        → IsTranslationOver way fs bytes lines other → text ≡ other }
{}

/// There and back: if `explain` answers a text for the lines of a derivation tree, and `lower` answers another for that text, then
/// this one is the lines of the derivation tree. Each number in the written tree between is to be below 2^64.
pub fn lowering_undoes_explaining()
    ensures { (fs : Features) (bytes lines text back : List ℕ) → IsTranslationOver Explain fs bytes lines text
        → IsTranslationOver Lower fs bytes text back
        → ((t : written.WrittenTree) → text ≡ written_lines t → WrittenHasWords t)
        → (u : lowered.LoweredTree) × AreLines lines (lowered_forms u) × (back ≡ lowered_lines u) }
{}

/// The other way round: if `lower` answers a text for the lines of a written tree, and `explain` answers another for that text, then
/// this one is the lines of the written tree. Each number in the derivation tree between is to be below 2^64.
pub fn explaining_undoes_lowering()
    ensures { (fs : Features) (bytes lines text back : List ℕ) → IsTranslationOver Lower fs bytes lines text
        → IsTranslationOver Explain fs bytes text back
        → ((u : lowered.LoweredTree) → text ≡ lowered_lines u → LoweredHasWords u)
        → (t : written.WrittenTree) × AreLines lines (written_forms t) × (back ≡ written_lines t) }
{}
