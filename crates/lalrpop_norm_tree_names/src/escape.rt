//! The texts of literals and terminals.
ghost use Rattle.std.specs.Prelude.{Some};
ghost use Rattle.std.specs.Fmt.{WritesOnOk};
ghost use Rattle.lalrpop_norm_tree_names.specs.Texts.{escape_char, escape, literal_text, terminal_text};

use crate::names::{TerminalLiteral, TerminalString};
use std::fmt;

/// A character as a literal shows it.
fn write_escaped_char<W: fmt::Write>(c: char, f: &mut fmt::Formatter<W>) -> fmt::Result
    ensures { WritesOnOk W.write_str_gives f.old result (escape_char c) f.new }
{
    match c {
        '\0' => f.write_str("\\0"),
        '\t' => f.write_str("\\t"),
        '\r' => f.write_str("\\r"),
        '\n' => f.write_str("\\n"),
        '\\' => f.write_str("\\\\"),
        '"' => f.write_str("\\\""),
        '\x01'..='\x1f' | '\x7f' => {
            let code = c as u32;
            write!(f, "\\u{{{code:x}}}")
        }
        _ => f.write_char(c),
    }
}

/// A text as a literal shows it, each character of it escaped.
pub fn write_escaped<W: fmt::Write>(text: &str, f: &mut fmt::Formatter<W>) -> fmt::Result
    ensures { WritesOnOk W.write_str_gives f.old result (escape text.now) f.new }
{
    for c in text.chars() {
        write_escaped_char(c, f)?;
    }
    Ok(())
}

impl fmt::Display for TerminalLiteral {
    ghost output = { λ l. Some (literal_text l) };

    fn fmt<W: fmt::Write>(&self, f: &mut fmt::Formatter<W>) -> fmt::Result {
        match self {
            TerminalLiteral::Quoted(text) => {
                f.write_str("\"")?;
                write_escaped(text.as_str(), f)?;
                f.write_str("\"")
            }
            TerminalLiteral::Regex(text) => {
                f.write_str("r#\"")?;
                write_escaped(text.as_str(), f)?;
                f.write_str("\"#")
            }
        }
    }
}

impl fmt::Display for TerminalString {
    ghost output = { λ t. Some (terminal_text t) };

    fn fmt<W: fmt::Write>(&self, f: &mut fmt::Formatter<W>) -> fmt::Result {
        match self {
            TerminalString::Literal(literal) => fmt::Display::fmt(literal, f),
            TerminalString::Bare(name) => fmt::Display::fmt(name, f),
            TerminalString::Error => f.write_str("error"),
        }
    }
}

impl fmt::Debug for TerminalLiteral {
    ghost debug_output = { λ l. Some (literal_text l) };

    fn fmt<W: fmt::Write>(&self, f: &mut fmt::Formatter<W>) -> fmt::Result {
        fmt::Display::fmt(self, f)
    }
}

impl fmt::Debug for TerminalString {
    ghost debug_output = { λ t. Some (terminal_text t) };

    fn fmt<W: fmt::Write>(&self, f: &mut fmt::Formatter<W>) -> fmt::Result {
        fmt::Display::fmt(self, f)
    }
}
