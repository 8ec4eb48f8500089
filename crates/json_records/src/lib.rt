//! JSON read straight from its tokens: texts, numbers, lists, and records whose fields are known, with no value of JSON in
//! between.
//!
//! A reader takes the first token of a value and the reader of the tokens behind it, and passes over the whole value, of any
//! form. If an object repeats a key, the last value counts. A value of another form than the wanted one is distinguished from a
//! text that is not JSON.
#![tactic(auto)]

mod error;
mod lists;
mod numbers;
pub mod pairs;
mod passing;
mod plain;
mod records;
mod scalars;
mod tuples;
mod variants;

pub use error::{ReadError, next_item, next_member, next_token};
pub use lists::{Reads, fitted, push, read_list, read_maybe};
pub use numbers::number;
pub use passing::pass;
pub use records::{And, End, Fields, read_record};
pub use scalars::{natural, open_array, open_object, short, text, truth};
pub use tuples::{all_three, both, read_pair, read_triple, read_two_naturals};
pub use variants::{Variant, is_other, read_variant};
