//! Actions and their numbers.
ghost use Rattle.std.specs.Prelude.{◌≡◌, ◌<◌, Some};
ghost use Rattle.lalrpop_norm_repr.specs.Actions.{action_index};
ghost use Rattle.lalrpop_norm_repr.specs.ReprTexts.{action_text};

pub(crate) mod copy;
mod show;

use crate::symbol::Symbol;
use lalrpop_norm_tree::grammar::parse_tree::ArgPattern;
use lalrpop_norm_tree::grammar::repr::TypeRepr;
use std::fmt;

/// The number of an action: its index in the grammar's list of actions.
#[derive(Clone, Copy, PartialEq, Eq, PartialOrd, Ord, Hash)]
pub struct ActionFn(u32);

impl ActionFn {
    /// The action of that index, which is below 2^32.
    pub fn new(x: usize) -> ActionFn
        requires { x < 4294967296 }
        ensures { action_index result ≡ x }
    {
        ActionFn(x as u32)
    }

    /// The action's index in the grammar's list of actions.
    pub fn index(self) -> usize
        ensures { result ≡ action_index self }
    {
        self.0 as usize
    }
}

impl fmt::Debug for ActionFn {
    ghost debug_output = { λ a. Some (action_text a) };

    fn fmt<W: fmt::Write>(&self, f: &mut fmt::Formatter<W>) -> fmt::Result {
        f.write_str("ActionFn(")?;
        fmt::Display::fmt(&self.0, f)?;
        f.write_str(")")
    }
}

/// An action.
#[derive(PartialEq, Eq)]
pub struct ActionFnDefn {
    /// Whether it answers a result.
    pub fallible: bool,
    /// The type of its value; of the value inside, where it answers a result.
    pub ret_type: TypeRepr,
    /// What it does.
    pub kind: ActionFnDefnKind,
}

/// What an action does.
#[derive(PartialEq, Eq)]
pub enum ActionFnDefnKind {
    /// Code of the grammar, or of a pass.
    User(UserActionFnDefn),
    /// Calls of other actions.
    Inline(InlineActionFnDefn),
    /// The location at a location symbol, `@L` or `@R`.
    Lookaround(LookaroundActionFnDefn),
}

/// An action with code, and for each symbol of its production a pattern and a type.
#[derive(PartialEq, Eq)]
pub struct UserActionFnDefn {
    /// One for each symbol of the production, in order.
    pub arg_patterns: Vec<ArgPattern>,
    /// One for each symbol of the production, in order.
    pub arg_types: Vec<TypeRepr>,
    /// With each `<>` substituted.
    pub code: String,
}

/// An action that calls others first and then one with what they answer.
#[derive(PartialEq, Eq)]
pub struct InlineActionFnDefn {
    /// The action that is called last.
    pub action: ActionFn,
    /// Its arguments, in order.
    pub symbols: Vec<InlinedSymbol>,
}

/// An action that answers the location of the next token, or of the end of the last one.
#[derive(Clone, PartialEq, Eq, Drop)]
pub enum LookaroundActionFnDefn {
    /// Of `@L`: where the next token begins.
    Lookahead,
    /// Of `@R`: where the token before ends.
    Lookbehind,
}

/// An argument of an inline action.
#[derive(PartialEq, Eq, Drop)]
pub enum InlinedSymbol {
    /// The symbol's own value.
    Original(Symbol),
    /// What the action answers on the values of these symbols.
    Inlined(ActionFn, Vec<Symbol>),
}

// The drop of a derived type is proved anew in each crate, wherever a value of it is dropped; the drops of actions are
// proved here.
impl Drop for ActionFnDefn {
    fn drop(self) {
        let ActionFnDefn {
            fallible: _fallible,
            ret_type: _ret_type,
            kind: _kind,
        } = self;
    }
}

impl Drop for ActionFnDefnKind {
    fn drop(self) {
        match self {
            ActionFnDefnKind::User(_action) => {}
            ActionFnDefnKind::Inline(_action) => {}
            ActionFnDefnKind::Lookaround(_action) => {}
        }
    }
}

impl Drop for UserActionFnDefn {
    fn drop(self) {
        let UserActionFnDefn {
            arg_patterns: _arg_patterns,
            arg_types: _arg_types,
            code: _code,
        } = self;
    }
}

impl Drop for InlineActionFnDefn {
    fn drop(self) {
        let InlineActionFnDefn {
            action: _action,
            symbols: _symbols,
        } = self;
    }
}
