//! Rules and their alternatives.

use super::Tree;
use json::{Reader, Token};
use json_records::{And, End, ReadError, Reads, Variant, pass, read_record, read_variant};
use lalrpop_norm_tree::grammar::parse_tree::{
    ActionKind, Alternative, Atom, Attribute, Condition, ConditionOp, ExprSymbol, NonterminalData,
    NonterminalString, Path, Span, TypeRef, Visibility,
};
use std::alloc::Global;

impl Variant<ActionKind> for Tree {
    ghost use Rattle.lalrpop_norm_tree.specs.Items.{action_view};
    ghost use Rattle.lalrpop_norm_json.specs.ItemForms.{action_form};
    ghost use Rattle.lalrpop_norm_json.specs.Shapes as shape;
    ghost use Rattle.lalrpop_norm_json.specs.Shapes.{is};
    ghost use Rattle.lalrpop_norm_json.specs.Laws.{no_variant};

    ghost form = { λ a. action_form (action_view a) };

    ghost can = { is shape.action };

    ghost law = { λ d other. no_variant _ _ d other };

    fn bare(name: &str) -> Option<ActionKind> {
        match name {
            "Lookahead" => Some(ActionKind::Lookahead),
            "Lookbehind" => Some(ActionKind::Lookbehind),
            _ => None,
        }
    }

    fn held<'a>(
        alloc: Global,
        name: &str,
        first: Token<'a>,
        reader: &mut Reader<'a>,
        depth: usize,
    ) -> Result<Option<ActionKind>, ReadError> {
        match name {
            "User" => match <Tree as Reads<String>>::read(alloc, first, reader, depth)? {
                Some(read) => Ok(Some(ActionKind::User(read))),
                None => Ok(None),
            },
            "Fallible" => match <Tree as Reads<String>>::read(alloc, first, reader, depth)? {
                Some(read) => Ok(Some(ActionKind::Fallible(read))),
                None => Ok(None),
            },
            _ => {
                pass(first, reader, depth)?;
                Ok(None)
            }
        }
    }
}

impl Reads<ActionKind> for Tree {
    ghost use Rattle.lalrpop_norm_tree.specs.Items.{action_view};
    ghost use Rattle.lalrpop_norm_json.specs.ItemForms.{action_form};
    ghost use Rattle.lalrpop_norm_json.specs.Shapes as shape;
    ghost use Rattle.lalrpop_norm_json.specs.Shapes.{is};

    ghost form = { λ a. action_form (action_view a) };

    ghost can = { is shape.action };

    fn read<'a>(
        alloc: Global,
        first: Token<'a>,
        reader: &mut Reader<'a>,
        depth: usize,
    ) -> Result<Option<ActionKind>, ReadError> {
        read_variant::<ActionKind, Tree>(alloc, first, reader, depth)
    }
}

impl Variant<ConditionOp> for Tree {
    ghost use Rattle.lalrpop_norm_json.specs.ItemForms.{condition_op_form};
    ghost use Rattle.lalrpop_norm_json.specs.Shapes as shape;
    ghost use Rattle.lalrpop_norm_json.specs.Shapes.{is};
    ghost use Rattle.lalrpop_norm_json.specs.Laws.{no_variant};

    ghost form = { condition_op_form };

    ghost can = { is shape.condition_operator };

    ghost law = { λ d other. no_variant _ _ d other };

    fn bare(name: &str) -> Option<ConditionOp> {
        match name {
            "Equals" => Some(ConditionOp::Equals),
            "NotEquals" => Some(ConditionOp::NotEquals),
            "Match" => Some(ConditionOp::Match),
            "NotMatch" => Some(ConditionOp::NotMatch),
            _ => None,
        }
    }

    fn held<'a>(
        _alloc: Global,
        _name: &str,
        first: Token<'a>,
        reader: &mut Reader<'a>,
        depth: usize,
    ) -> Result<Option<ConditionOp>, ReadError> {
        pass(first, reader, depth)?;
        Ok(None)
    }
}

impl Reads<ConditionOp> for Tree {
    ghost use Rattle.lalrpop_norm_json.specs.ItemForms.{condition_op_form};
    ghost use Rattle.lalrpop_norm_json.specs.Shapes as shape;
    ghost use Rattle.lalrpop_norm_json.specs.Shapes.{is};

    ghost form = { condition_op_form };

    ghost can = { is shape.condition_operator };

    fn read<'a>(
        alloc: Global,
        first: Token<'a>,
        reader: &mut Reader<'a>,
        depth: usize,
    ) -> Result<Option<ConditionOp>, ReadError> {
        read_variant::<ConditionOp, Tree>(alloc, first, reader, depth)
    }
}

impl Reads<Condition> for Tree {
    ghost use Rattle.lalrpop_norm_json.specs.ItemForms.{condition_form};
    ghost use Rattle.lalrpop_norm_json.specs.Shapes as shape;
    ghost use Rattle.lalrpop_norm_json.specs.Shapes.{is};

    ghost form = { condition_form };

    ghost can = { is shape.condition };

    fn read<'a>(
        alloc: Global,
        first: Token<'a>,
        reader: &mut Reader<'a>,
        depth: usize,
    ) -> Result<Option<Condition>, ReadError> {
        match read_record::<
            Tree,
            And<NonterminalString, And<ConditionOp, And<Atom, And<Span, End>>>>,
        >(alloc, &["lhs", "op", "rhs", "span"], first, reader, depth)?
        {
            Some(fields) => {
                let (lhs, (op, (rhs, (span, ())))) = fields;
                Ok(Some(Condition { span, lhs, rhs, op }))
            }
            None => Ok(None),
        }
    }
}

impl Reads<Alternative> for Tree {
    ghost use Rattle.lalrpop_norm_tree.specs.Items.{alternative_view};
    ghost use Rattle.lalrpop_norm_json.specs.ItemForms.{alternative_form};
    ghost use Rattle.lalrpop_norm_json.specs.Shapes as shape;
    ghost use Rattle.lalrpop_norm_json.specs.Shapes.{is};

    ghost form = { λ a. alternative_form (alternative_view a) };

    ghost can = { is shape.alternative };

    fn read<'a>(
        alloc: Global,
        first: Token<'a>,
        reader: &mut Reader<'a>,
        depth: usize,
    ) -> Result<Option<Alternative>, ReadError> {
        match read_record::<
            Tree,
            And<
                Option<ActionKind>,
                And<Vec<Attribute>, And<Option<Condition>, And<ExprSymbol, And<Span, End>>>>,
            >,
        >(
            alloc,
            &["action", "attributes", "condition", "expr", "span"],
            first,
            reader,
            depth,
        )? {
            Some(fields) => {
                let (action, (attributes, (condition, (expr, (span, ()))))) = fields;
                Ok(Some(Alternative {
                    span,
                    expr,
                    condition,
                    action,
                    attributes,
                }))
            }
            None => Ok(None),
        }
    }
}

impl Variant<Visibility> for Tree {
    ghost use Rattle.lalrpop_norm_tree.specs.Items.{visibility_view};
    ghost use Rattle.lalrpop_norm_json.specs.ItemForms.{visibility_form};
    ghost use Rattle.lalrpop_norm_json.specs.Shapes as shape;
    ghost use Rattle.lalrpop_norm_json.specs.Shapes.{is};
    ghost use Rattle.lalrpop_norm_json.specs.Laws.{no_variant};

    ghost form = { λ v. visibility_form (visibility_view v) };

    ghost can = { is shape.visibility };

    ghost law = { λ d other. no_variant _ _ d other };

    fn bare(name: &str) -> Option<Visibility> {
        match name {
            "Priv" => Some(Visibility::Priv),
            _ => None,
        }
    }

    fn held<'a>(
        alloc: Global,
        name: &str,
        first: Token<'a>,
        reader: &mut Reader<'a>,
        depth: usize,
    ) -> Result<Option<Visibility>, ReadError> {
        match name {
            "Pub" => match <Tree as Reads<Option<Path>>>::read(alloc, first, reader, depth)? {
                Some(read) => Ok(Some(Visibility::Pub(read))),
                None => Ok(None),
            },
            "PubIn" => match <Tree as Reads<Path>>::read(alloc, first, reader, depth)? {
                Some(read) => Ok(Some(Visibility::PubIn(read))),
                None => Ok(None),
            },
            _ => {
                pass(first, reader, depth)?;
                Ok(None)
            }
        }
    }
}

impl Reads<Visibility> for Tree {
    ghost use Rattle.lalrpop_norm_tree.specs.Items.{visibility_view};
    ghost use Rattle.lalrpop_norm_json.specs.ItemForms.{visibility_form};
    ghost use Rattle.lalrpop_norm_json.specs.Shapes as shape;
    ghost use Rattle.lalrpop_norm_json.specs.Shapes.{is};

    ghost form = { λ v. visibility_form (visibility_view v) };

    ghost can = { is shape.visibility };

    fn read<'a>(
        alloc: Global,
        first: Token<'a>,
        reader: &mut Reader<'a>,
        depth: usize,
    ) -> Result<Option<Visibility>, ReadError> {
        read_variant::<Visibility, Tree>(alloc, first, reader, depth)
    }
}

/// The fields of a rule, in the order of their keys.
type RuleFields = And<
    Vec<Alternative>,
    And<
        Vec<NonterminalString>,
        And<
            Vec<Attribute>,
            And<NonterminalString, And<Span, And<Option<TypeRef>, And<Visibility, End>>>>,
        >,
    >,
>;

impl Reads<NonterminalData> for Tree {
    ghost use Rattle.lalrpop_norm_tree.specs.Items.{rule_view};
    ghost use Rattle.lalrpop_norm_json.specs.ItemForms.{rule_form};
    ghost use Rattle.lalrpop_norm_json.specs.Shapes as shape;
    ghost use Rattle.lalrpop_norm_json.specs.Shapes.{is};

    ghost form = { λ n. rule_form (rule_view n) };

    ghost can = { is shape.rule };

    fn read<'a>(
        alloc: Global,
        first: Token<'a>,
        reader: &mut Reader<'a>,
        depth: usize,
    ) -> Result<Option<NonterminalData>, ReadError> {
        match read_record::<Tree, RuleFields>(
            alloc,
            &[
                "alternatives",
                "args",
                "attributes",
                "name",
                "span",
                "type_decl",
                "visibility",
            ],
            first,
            reader,
            depth,
        )? {
            Some(fields) => {
                let (
                    alternatives,
                    (args, (attributes, (name, (span, (type_decl, (visibility, ())))))),
                ) = fields;
                Ok(Some(NonterminalData {
                    visibility,
                    name,
                    attributes,
                    span,
                    args,
                    type_decl,
                    alternatives,
                }))
            }
            None => Ok(None),
        }
    }
}
