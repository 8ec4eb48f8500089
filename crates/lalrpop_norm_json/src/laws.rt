//! What the form says: the tree again.
ghost use Rattle.std.specs.Prelude.{◌≡◌, ℕ, List, Some, true};
ghost use Rattle.serde_json.specs.Data.{Data};
ghost use Rattle.serde_json.specs.Read.{read};
ghost use Rattle.lalrpop_norm_tree.specs.Items.{GrammarData};
ghost use Rattle.lalrpop_norm_json.specs.ItemForms.{grammar_form};
ghost use Rattle.lalrpop_norm_json.specs.Shapes as shape;
ghost use Rattle.lalrpop_norm_json.specs.Shapes.{is};

/// Two trees of one form are the same.
pub fn trees_of_one_form_are_one()
    ensures { (g h : GrammarData) (d : Data) → grammar_form g ≡ Some d → grammar_form h ≡ Some d → g ≡ h }
{}

/// If a text is the form of a tree, then its value has the shape of a grammar: each count of the tree is below 2^16.
pub fn forms_of_texts_have_the_shape()
    ensures { (g : GrammarData) (text : List ℕ) (d : Data) → read text ≡ Some d → grammar_form g ≡ Some d
        → is shape.grammar d ≡ true }
{}
