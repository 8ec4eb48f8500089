//! What no fault means. Each function is a law: it does nothing, and its contract is a theorem.
ghost use Rattle.lalrpop_norm_explain.specs.Laws.{FaultlessIsRooted, FaultlessIsPaired, FaultlessComesBack, TreesHaveNoFault};
ghost use Rattle.lalrpop_norm_explain.specs.Laws.{ShapedAreTrees, FaultsAreWritten, WaysAreInverse, RealizedIsFormed, RealizedCallsFit};
ghost use Rattle.lalrpop_norm_explain.specs.Anywhere.{FaultlessIsDerived, FaultlessIsReadAnywhere, RealizedCallFitsAnywhere};

/// A lowered tree has no fault exactly where it is a derivation tree of a name at which trees may begin.
pub fn faultless_is_rooted()
    ensures { FaultlessIsRooted }
{}

/// For `explain_at`: exactly the derivation trees of nonterminals have no fault.
pub fn faultless_is_derived()
    ensures { FaultlessIsDerived }
{}

/// If the grammar realizes a written one, then what is read from a tree without a fault is a written tree, the corresponding one.
pub fn faultless_is_paired()
    ensures { FaultlessIsPaired }
{}

/// In a grammar that realizes a written one, a written tree without a fault is lowered to a derivation tree that reads as it.
pub fn faultless_comes_back()
    ensures { FaultlessComesBack }
{}

/// Where the grammar realizes a written one, a tree of a known symbol has no fault.
pub fn trees_have_no_fault()
    ensures { TreesHaveNoFault }
{}

/// In any meaning exactly the trees of a ground symbol have no fault there, in terms of the written language.
pub fn shaped_are_trees()
    ensures { ShapedAreTrees }
{}

/// Where the grammar realizes a written one, the faults of each tree at a known symbol, with their paths, are those of the
/// written language.
pub fn faults_are_written()
    ensures { FaultsAreWritten }
{}

/// Of a grammar that realizes a written one, each of the two ways answers the corresponding tree and undoes the other.
pub fn ways_are_inverse()
    ensures { WaysAreInverse }
{}

/// A grammar that realizes a written one is formed, as far as names of known symbols are visited.
pub fn realized_is_formed()
    ensures { RealizedIsFormed }
{}

/// Of a grammar that realizes a written one, `explain` and `lower_tree` reject what is no tree, answer the tree that corresponds
/// to their argument, and undo each other.
pub fn realized_calls_fit()
    ensures { RealizedCallsFit }
{}

/// Of a grammar that realizes a written one, `explain_at` reads a derivation tree of a known symbol's nonterminal as the
/// corresponding tree of that symbol, each such tree of one derivation tree, and one of a start symbol as a tree of its rule.
pub fn realized_call_fits_anywhere()
    ensures { RealizedCallFitsAnywhere }
{}

/// If besides each nonterminal that has productions is that of a known symbol, or a start symbol over one, then `explain_at`
/// reads each tree without a fault as a tree of a known symbol.
pub fn faultless_is_read_anywhere()
    ensures { FaultlessIsReadAnywhere }
{}
