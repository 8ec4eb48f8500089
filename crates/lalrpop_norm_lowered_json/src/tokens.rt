//! The generated tokenizer.
ghost use Rattle.std.specs.Prelude.{◌≡◌};

use crate::put::Form;
use json::Writer;
use lalrpop_norm_lowered_json_tables::put::{Plain, Puts, put_field, put_list_field, put_variant};
use lalrpop_norm_tree::grammar::parse_tree::{
    Dfa, InternToken, MatchEntry, MatchMapping, TerminalLiteral, TerminalString,
};
use std::alloc::AllocError;

impl Puts<MatchMapping> for Form {
    ghost use Rattle.lalrpop_norm_json.specs.ItemForms.{mapping_form};

    ghost form = { mapping_form };

    fn put(out: &mut Writer, value: &MatchMapping) -> Result<(), AllocError> {
        match value {
            MatchMapping::Terminal(terminal) => {
                put_variant::<TerminalString, Plain>(out, "Terminal", terminal)
            }
            MatchMapping::Skip => out.string("Skip"),
        }
    }
}

impl Puts<MatchEntry> for Form {
    ghost use Rattle.lalrpop_norm_lowered_json.specs.WholeForms.{entry_of_match_form};

    ghost form = { entry_of_match_form };

    fn put(out: &mut Writer, value: &MatchEntry) -> Result<(), AllocError> {
        out.begin_object()?;
        put_field::<TerminalLiteral, Plain>(out, "match_literal", &value.match_literal)?;
        put_field::<usize, Plain>(out, "precedence", &value.precedence)?;
        put_field::<MatchMapping, Form>(out, "user_name", &value.user_name)?;
        out.end_object()
    }
}

impl Puts<u32> for Form {
    ghost use Rattle.lalrpop_norm_json.specs.Json.{natural};

    ghost form = { natural };

    fn put(out: &mut Writer, value: &u32) -> Result<(), AllocError> {
        out.u64(*value as u64)
    }
}

impl Puts<Dfa> for Form {
    ghost use Rattle.std.specs.Prelude.{[], ◌∷◌, codes};
    ghost use Rattle.lalrpop_norm_json.specs.Json.{fields, list_form, natural};

    ghost form = { λ d. fields ((codes "code", list_form natural d.code.items) ∷ []) };

    fn put(out: &mut Writer, value: &Dfa) -> Result<(), AllocError> {
        out.begin_object()?;
        put_list_field::<u32, Form>(out, "code", &value.code)?;
        out.end_object()
    }
}

impl Puts<InternToken> for Form {
    ghost use Rattle.lalrpop_norm_tree.specs.Items.{intern_token_view};
    ghost use Rattle.lalrpop_norm_lowered_json.specs.WholeForms.{intern_token_form};

    ghost form = { λ t. intern_token_form (intern_token_view t) };

    fn put(out: &mut Writer, value: &InternToken) -> Result<(), AllocError> {
        out.begin_object()?;
        put_field::<Dfa, Form>(out, "dfa", &value.dfa)?;
        put_list_field::<MatchEntry, Form>(out, "match_entries", &value.match_entries)?;
        out.end_object()
    }
}
