//! What a grammar's attributes say of its parser.
ghost use Rattle.std.specs.Prelude.{◌≡◌, ◌||◌, IsTrue, All, bytes_eq, codes, fold, unwrap_or};
ghost use Rattle.std.specs.List.{list_any};
ghost use Rattle.lalrpop_norm_tree_parts.specs.Accessors.{is_known_name, codegen_named};

use super::Attribute;
use crate::lowered::{Algorithm, LrCodeGeneration};

/// Whether the attribute says how the parser is to be made: `LALR`, `table_driven`, `recursive_ascent` or `test_all`.
pub fn is_known_attribute(attribute: &Attribute) -> bool
    ensures { result ≡ is_known_name attribute.now.id }
{
    is_known(attribute.id.as_str())
}

/// Changes the algorithm as the attributes of a grammar say: `LALR` sets `lalr`, the others set the kind of code, the last one
/// standing. Each attribute is known (`is_known_attribute`).
pub fn read_algorithm(attributes: &[Attribute], algorithm: &mut Algorithm)
    requires { All (λ a. IsTrue (is_known_name a.id)) attributes.now }
    ensures lalr { algorithm.new.lalr ≡ (algorithm.old.lalr || list_any (λ a. bytes_eq a.id (codes "LALR")) attributes.now) }
    ensures codegen { algorithm.new.codegen ≡ fold (λ code a. unwrap_or (codegen_named a.id) code) algorithm.old.codegen attributes.now }
{
    for attribute in attributes {
        read_attribute(attribute.id.as_str(), algorithm);
    }
}

fn is_known(name: &str) -> bool
    ensures { result ≡ is_known_name name.now }
{
    name == "LALR" || name == "table_driven" || name == "recursive_ascent" || name == "test_all"
}

fn read_attribute(name: &str, algorithm: &mut Algorithm)
    requires { IsTrue (is_known_name name.now) }
    ensures lalr { algorithm.new.lalr ≡ (algorithm.old.lalr || bytes_eq name.now (codes "LALR")) }
    ensures codegen { algorithm.new.codegen ≡ unwrap_or (codegen_named name.now) algorithm.old.codegen }
{
    if name == "LALR" {
        algorithm.lalr = true;
    } else if name == "table_driven" {
        algorithm.codegen = LrCodeGeneration::TableDriven;
    } else if name == "recursive_ascent" {
        algorithm.codegen = LrCodeGeneration::RecursiveAscent;
    } else if name == "test_all" {
        algorithm.codegen = LrCodeGeneration::TestAll;
    } else {
        unreachable!()
    }
}
