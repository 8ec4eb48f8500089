//! A text that remembers whether an allocation failed for a part. Thus what puts parts has no result: each `?` would be a way out
//! of its own, and is proved as one. Parts are put one by one, since `format_args!` of several is proved in twice the time.
use std::alloc::AllocError;
use std::fmt;

/// A text that is made of parts. It says at its end whether all were allocated; behind a part for which an allocation failed,
/// nothing more is put.
#[derive(Drop)]
pub(crate) struct Text {
    /// The parts.
    pub(crate) text: String,
    /// Whether no allocation failed for a part, or for something that belongs to one.
    pub(crate) is_whole: bool,
}

impl Text {
    /// Puts the part.
    pub(crate) fn put(&mut self, part: &str) {
        self.is_whole = self.is_whole && self.text.push_str(part).is_ok();
    }

    /// Puts the part by its `Display`.
    pub(crate) fn show<T: fmt::Display + Drop>(&mut self, part: T) {
        self.is_whole = self.is_whole && write!(self.text, "{part}").is_ok();
    }

    /// Puts the part by its `Display`, between those texts.
    pub(crate) fn show_between<T: fmt::Display + Drop>(
        &mut self,
        before: &str,
        part: T,
        after: &str,
    ) {
        self.put(before);
        self.show(part);
        self.put(after);
    }

    /// Puts the text, and the part by its `Display`.
    pub(crate) fn show_after<T: fmt::Display + Drop>(&mut self, before: &str, part: T) {
        self.put(before);
        self.show(part);
    }

    /// Puts the text, the part by its `Display`, and the end of the line.
    pub(crate) fn show_line<T: fmt::Display + Drop>(&mut self, before: &str, part: T) {
        self.put(before);
        self.show(part);
        self.end_line();
    }

    /// Puts the text, and the part by its `Debug`.
    pub(crate) fn debug_after<T: fmt::Debug + Drop>(&mut self, before: &str, part: T) {
        self.put(before);
        self.is_whole = self.is_whole && write!(self.text, "{part:?}").is_ok();
    }

    /// Puts the text, the part by its `Debug`, and the end of the line.
    pub(crate) fn debug_line<T: fmt::Debug + Drop>(&mut self, before: &str, part: T) {
        self.debug_after(before, part);
        self.end_line();
    }

    /// Puts the end of the line.
    pub(crate) fn end_line(&mut self) {
        self.put("\n");
    }

    /// Makes room for so many bytes more.
    pub(crate) fn reserve(&mut self, additional: usize) {
        self.is_whole = self.is_whole && self.text.reserve(additional).is_ok();
    }

    /// The text, unless an allocation failed.
    pub(crate) fn finish(self) -> Result<String, AllocError> {
        if self.is_whole {
            Ok(self.text)
        } else {
            Err(AllocError)
        }
    }
}
