//! Truth values, numbers, texts, lists and options.

use crate::error::ReadError;
use crate::lists::{Reads, read_list, read_maybe};
use crate::scalars::{natural, short, text, truth};
use json::{Reader, Token};
use std::alloc::Global;

impl<K> Reads<bool> for K {
    ghost use Rattle.serde_json.specs.Data.{boolean};
    ghost use Rattle.json_records.specs.Reading.{is_truth};

    ghost form = { boolean };

    ghost can = { is_truth };

    fn read<'a>(
        _alloc: Global,
        first: Token<'a>,
        reader: &mut Reader<'a>,
        depth: usize,
    ) -> Result<Option<bool>, ReadError> {
        truth(first, reader, depth)
    }
}

impl<K> Reads<usize> for K {
    ghost use Rattle.serde_json.specs.Data.{number, unsigned};
    ghost use Rattle.json_records.specs.Reading.{is_natural};

    ghost form = { λ n. number (unsigned n) };

    ghost can = { is_natural };

    fn read<'a>(
        _alloc: Global,
        first: Token<'a>,
        reader: &mut Reader<'a>,
        depth: usize,
    ) -> Result<Option<usize>, ReadError> {
        match natural(first, reader, depth)? {
            Some(n) => Ok(Some(n as usize)),
            None => Ok(None),
        }
    }
}

impl<K> Reads<u16> for K {
    ghost use Rattle.serde_json.specs.Data.{number, unsigned};
    ghost use Rattle.json_records.specs.Reading.{is_short};

    ghost form = { λ n. number (unsigned n) };

    ghost can = { is_short };

    fn read<'a>(
        _alloc: Global,
        first: Token<'a>,
        reader: &mut Reader<'a>,
        depth: usize,
    ) -> Result<Option<u16>, ReadError> {
        short(first, reader, depth)
    }
}

impl<K> Reads<String> for K {
    ghost use Rattle.std.specs.Prelude.{string_bytes};
    ghost use Rattle.serde_json.specs.Data.{string};
    ghost use Rattle.json_records.specs.Reading.{is_text};

    ghost form = { λ s. string (string_bytes s) };

    ghost can = { is_text };

    fn read<'a>(
        alloc: Global,
        first: Token<'a>,
        reader: &mut Reader<'a>,
        depth: usize,
    ) -> Result<Option<String>, ReadError> {
        match text(first, reader, depth)? {
            Some(text) => Ok(Some(String::from_str(alloc, text)?)),
            None => Ok(None),
        }
    }
}

impl<T: Drop, K: Reads<T>> Reads<Vec<T>> for K {
    ghost use Rattle.std.specs.Prelude.{map};
    ghost use Rattle.json_records.specs.Reading.{list_form, is_list};

    ghost form = { λ xs. list_form (map K.Reads.form xs.items) };

    ghost can = { is_list K.Reads.can };

    fn read<'a>(
        alloc: Global,
        first: Token<'a>,
        reader: &mut Reader<'a>,
        depth: usize,
    ) -> Result<Option<Vec<T>>, ReadError> {
        read_list::<T, K>(alloc, first, reader, depth)
    }
}

impl<T, K: Reads<T>> Reads<Option<T>> for K {
    ghost use Rattle.json_records.specs.Reading.{maybe_form, may_be};

    ghost form = { maybe_form K.Reads.form };

    ghost can = { may_be K.Reads.can };

    fn read<'a>(
        alloc: Global,
        first: Token<'a>,
        reader: &mut Reader<'a>,
        depth: usize,
    ) -> Result<Option<Option<T>>, ReadError> {
        read_maybe::<T, K>(alloc, first, reader, depth)
    }
}
