//! What each type writes, and options of such.
ghost use Rattle.std.specs.Prelude.{◌≡◌, ◌++◌, ◌∷◌, OnOk};
ghost use Rattle.json.specs.Token.{key};
ghost use Rattle.lalrpop_norm_json.specs.Json.{maybe_form};
ghost use Rattle.lalrpop_norm_lowered_json_tables.specs.Written.{Puts, data_tokens};

use json::Writer;
use lalrpop_norm_lowered_json_tables::put::Puts;
use std::alloc::AllocError;

/// How the values of a lowered grammar are written, but for those of `Plain`.
pub(crate) struct Form;

/// `null`, or what is there.
pub fn put_maybe<T, K: Puts<T>>(out: &mut Writer, value: &Option<T>) -> Result<(), AllocError>
    ensures { Puts result out.old out.new (maybe_form K.Puts.form value.now) }
{
    match value {
        Some(value) => K::put(out, value),
        None => out.null(),
    }
}

/// A field that may be absent: `null` then.
pub fn put_maybe_field<T, K: Puts<T>>(
    out: &mut Writer,
    name: &str,
    value: &Option<T>,
) -> Result<(), AllocError>
    ensures ok { OnOk result (out.new.tokens ≡ out.old.tokens ++ key name.now ∷ data_tokens (maybe_form K.Puts.form value.now)) }
    ensures before { out.new.before ≡ out.old.before }
{
    out.key(name)?;
    put_maybe::<T, K>(out, value)
}
