//! What each type writes, and lists and tables of such.
ghost use Rattle.std.specs.Prelude.{◌≡◌, ◌++◌, ◌∷◌, [], map, OnOk};
ghost use Rattle.json.specs.Token.{begin_object, key};
ghost use Rattle.lalrpop_norm_json.specs.Json.{list_form, row, variant};
ghost use Rattle.lalrpop_norm_lowered_json_tables.specs.Written.{Puts, data_tokens};
ghost use Rattle.lalrpop_norm_lowered_json_tables.specs.TableForms.{rows_form};

use json::Writer;
use std::alloc::AllocError;
use std::collections::BTreeMap;

/// How values that hold no lowered type are written.
pub struct Plain;

/// Writes the form of a value.
pub trait Puts<T> {
    ghost use Rattle.serde_json.specs.Data.{Data};

    ghost form: { T → Data };

    /// The only error is a failed allocation.
    fn put(out: &mut Writer, value: &T) -> Result<(), AllocError>
        ensures { Puts result out.old out.new (form value.now) };
}

impl Puts<bool> for Plain {
    ghost use Rattle.serde_json.specs.Data.{boolean};

    ghost form = { boolean };

    fn put(out: &mut Writer, value: &bool) -> Result<(), AllocError> {
        out.boolean(*value)
    }
}

impl Puts<usize> for Plain {
    ghost use Rattle.lalrpop_norm_json.specs.Json.{natural};

    ghost form = { natural };

    fn put(out: &mut Writer, value: &usize) -> Result<(), AllocError> {
        out.u64(*value as u64)
    }
}

impl Puts<String> for Plain {
    ghost use Rattle.std.specs.Prelude.{string_bytes};
    ghost use Rattle.serde_json.specs.Data.{string};

    ghost form = { λ s. string (string_bytes s) };

    fn put(out: &mut Writer, value: &String) -> Result<(), AllocError> {
        out.string(value.as_str())
    }
}

/// An array.
pub fn put_list<T, K: Puts<T>>(out: &mut Writer, items: &Vec<T>) -> Result<(), AllocError>
    ensures { Puts result out.old out.new (list_form K.Puts.form items.now.items) }
{
    out.begin_array()?;
    for item in items {
        K::put(out, item)?;
    }
    out.end_array()
}

/// An array with a pair for each row of a table, in the order of its keys.
pub fn put_rows<N: Ord, V, K: Puts<N>, L: Puts<V>>(
    out: &mut Writer,
    rows: &BTreeMap<N, V>,
) -> Result<(), AllocError>
    ensures { Puts result out.old out.new (rows_form K.Puts.form L.Puts.form rows.now.entries) }
{
    out.begin_array()?;
    for (name, value) in rows {
        put_row::<N, V, K, L>(out, name, value)?;
    }
    out.end_array()
}

/// A pair.
fn put_row<N, V, K: Puts<N>, L: Puts<V>>(
    out: &mut Writer,
    name: &N,
    value: &V,
) -> Result<(), AllocError>
    ensures { Puts result out.old out.new (row (K.Puts.form name.now ∷ L.Puts.form value.now ∷ [])) }
{
    out.begin_array()?;
    K::put(out, name)?;
    L::put(out, value)?;
    out.end_array()
}

/// A field of a struct.
pub fn put_field<T, K: Puts<T>>(out: &mut Writer, name: &str, value: &T) -> Result<(), AllocError>
    ensures ok { OnOk result (out.new.tokens ≡ out.old.tokens ++ key name.now ∷ data_tokens (K.Puts.form value.now)) }
    ensures before { out.new.before ≡ out.old.before }
{
    out.key(name)?;
    K::put(out, value)
}

/// A field that is a list.
pub fn put_list_field<T, K: Puts<T>>(
    out: &mut Writer,
    name: &str,
    items: &Vec<T>,
) -> Result<(), AllocError>
    ensures ok { OnOk result (out.new.tokens ≡ out.old.tokens ++ key name.now ∷ data_tokens (list_form K.Puts.form items.now.items)) }
    ensures before { out.new.before ≡ out.old.before }
{
    out.key(name)?;
    put_list::<T, K>(out, items)
}

/// A field that is a table.
pub fn put_rows_field<N: Ord, V, K: Puts<N>, L: Puts<V>>(
    out: &mut Writer,
    name: &str,
    rows: &BTreeMap<N, V>,
) -> Result<(), AllocError>
    ensures ok { OnOk result (out.new.tokens
        ≡ out.old.tokens ++ key name.now ∷ data_tokens (rows_form K.Puts.form L.Puts.form rows.now.entries)) }
    ensures before { out.new.before ≡ out.old.before }
{
    out.key(name)?;
    put_rows::<N, V, K, L>(out, rows)
}

/// The name of a variant; what it holds, and the end of its object, are left to be written.
pub fn begin_variant(out: &mut Writer, name: &str) -> Result<(), AllocError>
    ensures ok { OnOk result (out.new.tokens ≡ out.old.tokens ++ begin_object ∷ key name.now ∷ []) }
    ensures before { out.new.before ≡ out.old.before }
{
    out.begin_object()?;
    out.key(name)
}

/// A variant and what it holds.
pub fn put_variant<T, K: Puts<T>>(out: &mut Writer, name: &str, value: &T) -> Result<(), AllocError>
    ensures { Puts result out.old out.new (variant name.now (K.Puts.form value.now)) }
{
    begin_variant(out, name)?;
    K::put(out, value)?;
    out.end_object()
}
