//! The associativity of an alternative.
ghost use Rattle.std.specs.Prelude.{◌≡◌, Some, codes};

use std::fmt;
use std::str::FromStr;

/// The associativity of an alternative: on which side of an operator its own level may be.
///
/// The *recursive occurrences* of an alternative are its references to its own rule, in reading order. Those of the current level
/// let the alternative be iterated there; those of the previous level, the next lower one, do not.
#[derive(Clone, Copy, PartialEq, Eq)]
pub enum Assoc {
    /// `left`: the first recursive occurrence has the current level, all others the previous one.
    Left,
    /// `right`: the last recursive occurrence has the current level, all others the previous one.
    Right,
    /// `none`: each recursive occurrence has the previous level.
    NonAssoc,
    /// `all`: each recursive occurrence has the current level. An alternative without an associativity has this one.
    FullyAssoc,
}

impl Default for Assoc {
    fn default() -> Assoc
        ensures { result ≡ Assoc.FullyAssoc }
    {
        Assoc::FullyAssoc
    }
}

/// A text that names no associativity. It prints LALRPOP's words, which leave `all` out.
#[derive(Clone, Debug, PartialEq, Eq, Drop)]
pub struct ParseAssocError {
    private: (),
}

impl fmt::Display for ParseAssocError {
    ghost output = { λ _. Some (codes "provided value was neither `left`, `right` nor `none`") };

    fn fmt<W: fmt::Write>(&self, f: &mut fmt::Formatter<W>) -> fmt::Result {
        fmt::Display::fmt("provided value was neither `left`, `right` nor `none`", f)
    }
}

impl FromStr for Assoc {
    type Err = ParseAssocError;

    ghost use Rattle.std.specs.Prelude.{◌≡◌, option_map};
    ghost use Rattle.std.specs.Result.{result_ok};
    ghost use Rattle.lalrpop_norm_model.specs.Levels.{side_named};
    ghost use Rattle.lalrpop_norm_precedence_steps.specs.Sides.{side_of};

    ghost from_str_gives = { λ text r. option_map side_of (result_ok r) ≡ side_named text };

    /// The associativity that a text names: `left`, `right`, `none` or `all`. Any other text names none.
    fn from_str(s: &str) -> Result<Assoc, ParseAssocError> {
        match s {
            "left" => Ok(Assoc::Left),
            "right" => Ok(Assoc::Right),
            "none" => Ok(Assoc::NonAssoc),
            "all" => Ok(Assoc::FullyAssoc),
            _ => Err(ParseAssocError { private: () }),
        }
    }
}
