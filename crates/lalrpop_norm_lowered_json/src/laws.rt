//! What the form says: the grammar again.
ghost use Rattle.std.specs.Prelude.{◌≡◌, ◌≤◌, ◌++◌, codes, List, Option, Some};
ghost use Rattle.lalrpop_norm_theory.specs.LoweredTrees as theory;
ghost use Rattle.lalrpop_norm_tree_parts.specs.Reprs.{ReprData};
ghost use Rattle.lalrpop_norm_repr.specs.Lowered.{LoweredGrammar};
ghost use Rattle.serde_json.specs.Data.{depth};
ghost use Rattle.serde_json.specs.Read.{max_depth, read};
ghost use Rattle.serde_json.specs.Written.{compact_text};
ghost use Rattle.lalrpop_norm_lowered_json.specs.Laws.{HasWords};
ghost use Rattle.lalrpop_norm_lowered_json.specs.LoweredForms.{repr_form};
ghost use Rattle.lalrpop_norm_lowered_json.specs.WholeForms.{whole_form};

/// Two lowered types of one form are the same.
pub fn types_of_one_form_are_one()
    ensures { (t u : ReprData) → repr_form t ≡ repr_form u → t ≡ u }
{}

/// Two lowered grammars of one form are the same, and so are the origins of their actions.
pub fn grammars_of_one_form_are_one()
    ensures { (os ps : Option (List theory.Origin)) (l m : LoweredGrammar) → whole_form os l ≡ whole_form ps m
        → (os ≡ ps) × (l ≡ m) }
{}

/// If each number in their JSON is below 2^64, then two lowered grammars of one text are the same, and so are the origins of their
/// actions.
pub fn grammars_of_one_text_are_one()
    ensures { (os ps : Option (List theory.Origin)) (l m : LoweredGrammar) → HasWords (whole_form os l) → HasWords (whole_form ps m)
        → compact_text (whole_form os l) ≡ compact_text (whole_form ps m) → (os ≡ ps) × (l ≡ m) }
{}

/// Round trip: if each number in its form is below 2^64, and the form is nested at most 127 deep, then `serde_json` reads the form of
/// a lowered grammar from its text.
pub fn text_reads_back()
    ensures { (os : Option (List theory.Origin)) (l : LoweredGrammar) → HasWords (whole_form os l)
        → depth (whole_form os l) ≤ max_depth → read (compact_text (whole_form os l)) ≡ Some (whole_form os l) }
{}

/// If the same holds, then `serde_json` reads the form from the text with a line feed after it.
pub fn line_reads_back()
    ensures { (os : Option (List theory.Origin)) (l : LoweredGrammar) → HasWords (whole_form os l)
        → depth (whole_form os l) ≤ max_depth → read (compact_text (whole_form os l) ++ codes "\n") ≡ Some (whole_form os l) }
{}
