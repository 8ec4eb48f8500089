//! The texts of lists, and of a result. They are taken as the `Vec` and the `Option` that a type holds: a text of a recursive type may
//! then be made of them.
ghost use Rattle.std.specs.Prelude.{Some, map, option_map, codes};
ghost use Rattle.std.specs.Fmt.{DisplaysOnOk, ◌++?◌};
ghost use Rattle.lalrpop_norm_tree_parts.specs.KnownTexts.{joined_known, angled_known, bounds_known, returned_known};

use std::fmt;

/// Writes the items with the separator between each two. The only error is the formatter's.
pub fn show_joined<T: fmt::Display, W: fmt::Write>(
    items: &Vec<T>,
    separator: &str,
    f: &mut fmt::Formatter<W>,
) -> fmt::Result
    ensures { DisplaysOnOk W.write_str_gives f.old result
        (joined_known separator.now (map T.output items.now.items)) f.new }
{
    if let Some((first, others)) = items.split_first() {
        fmt::Display::fmt(first, f)?;
        for other in others {
            f.write_str(separator)?;
            fmt::Display::fmt(other, f)?;
        }
    }
    Ok(())
}

/// Writes `(A, B)`. The only error is the formatter's.
pub fn show_between<T: fmt::Display, W: fmt::Write>(
    items: &Vec<T>,
    f: &mut fmt::Formatter<W>,
) -> fmt::Result
    ensures { DisplaysOnOk W.write_str_gives f.old result
        (Some (codes "(") ++? joined_known (codes ", ") (map T.output items.now.items) ++? Some (codes ")")) f.new }
{
    f.write_str("(")?;
    show_joined(items, ", ", f)?;
    f.write_str(")")
}

/// Writes `<A, B>`, where there is an item. The only error is the formatter's.
pub fn show_angled<T: fmt::Display, W: fmt::Write>(
    items: &Vec<T>,
    f: &mut fmt::Formatter<W>,
) -> fmt::Result
    ensures { DisplaysOnOk W.write_str_gives f.old result (angled_known (map T.output items.now.items)) f.new }
{
    if items.is_empty() {
        return Ok(());
    }
    f.write_str("<")?;
    show_joined(items, ", ", f)?;
    f.write_str(">")
}

/// ` A + B`, where there is an item.
pub(crate) fn show_bounds<T: fmt::Display, W: fmt::Write>(
    items: &Vec<T>,
    f: &mut fmt::Formatter<W>,
) -> fmt::Result
    ensures { DisplaysOnOk W.write_str_gives f.old result (bounds_known (map T.output items.now.items)) f.new }
{
    if items.is_empty() {
        return Ok(());
    }
    f.write_str(" ")?;
    show_joined(items, " + ", f)
}

/// Writes ` -> R`, where there is a result. The only error is the formatter's.
pub fn show_return<T: fmt::Display, W: fmt::Write>(
    ret: &Option<T>,
    f: &mut fmt::Formatter<W>,
) -> fmt::Result
    ensures { DisplaysOnOk W.write_str_gives f.old result (returned_known (option_map T.output ret.now)) f.new }
{
    match ret {
        None => Ok(()),
        Some(inner) => {
            f.write_str(" -> ")?;
            fmt::Display::fmt(inner, f)
        }
    }
}
