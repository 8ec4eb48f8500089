//! Two or three values, each of its own type: an array of exactly these.
ghost use Rattle.std.specs.Prelude.{◌≡◌, ◌⊎◌, [], ◌∷◌, Some, None, MatchOption, IfOk};
ghost use Rattle.serde_json.specs.Data.{Items, number as numeral, unsigned};
ghost use Rattle.json_records.specs.Reading.{items_of, is_natural};
ghost use Rattle.json_records.specs.Rows.{pass_row};
ghost use Rattle.json_records.specs.Readers.{ReadsRow, ReadsItems, NotJsonOnlyIfNone, NotJsonOnlyIfNoData, LeavesNoMore};

use crate::error::{ReadError, next_item, next_token};
use crate::lists::Reads;
use crate::passing::{pass, pass_items};
use crate::scalars::{natural, open_array};
use json::{Reader, Token};
use std::alloc::Global;

/// Both, where each is there.
pub fn both<A: Drop, B: Drop>(one: Option<A>, two: Option<B>) -> Option<(A, B)>
    ensures { MatchOption result ((one ≡ None) ⊎ (two ≡ None)) (λ p. (one ≡ Some p.0) × (two ≡ Some p.1)) }
{
    let Some(one) = one else {
        return None;
    };
    let Some(two) = two else {
        return None;
    };
    Some((one, two))
}

/// All three, where each is there.
pub fn all_three<A: Drop, B: Drop, C: Drop>(
    one: Option<A>,
    two: Option<B>,
    three: Option<C>,
) -> Option<(A, B, C)>
    ensures { MatchOption result ((one ≡ None) ⊎ ((two ≡ None) ⊎ (three ≡ None)))
        (λ p. (one ≡ Some p.0) × (two ≡ Some p.1) × (three ≡ Some p.2)) }
{
    let Some(one) = one else {
        return None;
    };
    let Some(two) = two else {
        return None;
    };
    let Some(three) = three else {
        return None;
    };
    Some((one, two, three))
}

/// The array of two values, each of which has its own reader.
pub fn read_pair<'a, A: Drop, B: Drop, K: Reads<A>, L: Reads<B>>(
    alloc: Global,
    first: Token<'a>,
    reader: &mut Reader<'a>,
    depth: usize,
) -> Result<Option<(A, B)>, ReadError>
    ensures ok { ReadsRow result (λ p. K.Reads.form p.0 ∷ L.Reads.form p.1 ∷ [])
        (K.Reads.can ∷ L.Reads.can ∷ []) depth first.entry reader.old reader.new }
    ensures err { NotJsonOnlyIfNoData result depth first.entry reader.old }
    ensures shorter { LeavesNoMore result reader.old reader.new }
{
    match open_array(first, reader, depth)? {
        Some(depth) => last_two::<A, B, K, L>(alloc, reader, depth),
        None => Ok(None),
    }
}

/// The array of two natural numbers below 2 ^ 64.
pub fn read_two_naturals<'a>(
    first: Token<'a>,
    reader: &mut Reader<'a>,
    depth: usize,
) -> Result<Option<(u64, u64)>, ReadError>
    ensures ok { ReadsRow result (λ p. numeral (unsigned p.0) ∷ numeral (unsigned p.1) ∷ [])
        (is_natural ∷ is_natural ∷ []) depth first.entry reader.old reader.new }
    ensures err { NotJsonOnlyIfNoData result depth first.entry reader.old }
    ensures shorter { LeavesNoMore result reader.old reader.new }
{
    match open_array(first, reader, depth)? {
        Some(depth) => last_naturals(reader, depth),
        None => Ok(None),
    }
}

/// The array of three values, each of which has its own reader.
pub fn read_triple<'a, A: Drop, B: Drop, C: Drop, K: Reads<A>, L: Reads<B>, M: Reads<C>>(
    alloc: Global,
    first: Token<'a>,
    reader: &mut Reader<'a>,
    depth: usize,
) -> Result<Option<(A, B, C)>, ReadError>
    ensures ok { ReadsRow result (λ p. K.Reads.form p.0 ∷ L.Reads.form p.1 ∷ M.Reads.form p.2 ∷ [])
        (K.Reads.can ∷ L.Reads.can ∷ M.Reads.can ∷ []) depth first.entry reader.old reader.new }
    ensures err { NotJsonOnlyIfNoData result depth first.entry reader.old }
    ensures shorter { LeavesNoMore result reader.old reader.new }
{
    match open_array(first, reader, depth)? {
        Some(depth) => last_three::<A, B, C, K, L, M>(alloc, reader, depth),
        None => Ok(None),
    }
}

/// The last three items of an array.
fn last_three<'a, A: Drop, B: Drop, C: Drop, K: Reads<A>, L: Reads<B>, M: Reads<C>>(
    alloc: Global,
    reader: &mut Reader<'a>,
    depth: usize,
) -> Result<Option<(A, B, C)>, ReadError>
    ensures ok { ReadsItems result (λ p. K.Reads.form p.0 ∷ L.Reads.form p.1 ∷ M.Reads.form p.2 ∷ [])
        (K.Reads.can ∷ L.Reads.can ∷ M.Reads.can ∷ []) depth reader.old reader.new }
    ensures err { NotJsonOnlyIfNone result (items_of depth reader.old) }
    ensures shorter { LeavesNoMore result reader.old reader.new }
{
    let Some(first) = next_item(reader)? else {
        return Ok(None);
    };
    let one = K::read(alloc, first, reader, depth)?;
    let others = last_two::<B, C, L, M>(alloc, reader, depth)?;
    Ok(in_front(one, others))
}

/// All three, where the first and the other two are there.
fn in_front<A: Drop, B: Drop, C: Drop>(one: Option<A>, others: Option<(B, C)>) -> Option<(A, B, C)>
    ensures { MatchOption result ((one ≡ None) ⊎ (others ≡ None)) (λ p. (one ≡ Some p.0) × (others ≡ Some (p.1, p.2))) }
{
    match both(one, others) {
        Some((first, (second, third))) => Some((first, second, third)),
        None => None,
    }
}

/// The last two items of an array.
fn last_two<'a, A: Drop, B: Drop, K: Reads<A>, L: Reads<B>>(
    alloc: Global,
    reader: &mut Reader<'a>,
    depth: usize,
) -> Result<Option<(A, B)>, ReadError>
    ensures ok { ReadsItems result (λ p. K.Reads.form p.0 ∷ L.Reads.form p.1 ∷ [])
        (K.Reads.can ∷ L.Reads.can ∷ []) depth reader.old reader.new }
    ensures err { NotJsonOnlyIfNone result (items_of depth reader.old) }
    ensures shorter { LeavesNoMore result reader.old reader.new }
{
    let Some(first) = next_item(reader)? else {
        return Ok(None);
    };
    let one = K::read(alloc, first, reader, depth)?;
    let two = last_one::<B, L>(alloc, reader, depth)?;
    Ok(both(one, two))
}

/// The last item of an array.
fn last_one<'a, A: Drop, K: Reads<A>>(
    alloc: Global,
    reader: &mut Reader<'a>,
    depth: usize,
) -> Result<Option<A>, ReadError>
    ensures ok { ReadsItems result (λ x. K.Reads.form x ∷ []) (K.Reads.can ∷ []) depth reader.old reader.new }
    ensures err { NotJsonOnlyIfNone result (items_of depth reader.old) }
    ensures shorter { LeavesNoMore result reader.old reader.new }
{
    let Some(first) = next_item(reader)? else {
        return Ok(None);
    };
    let one = K::read(alloc, first, reader, depth)?;
    if !ends(reader, depth)? {
        return Ok(None);
    }
    Ok(one)
}

/// The last two items of an array, which are natural numbers below 2 ^ 64.
#[inline(always)]
fn last_naturals<'a>(reader: &mut Reader<'a>, depth: usize) -> Result<Option<(u64, u64)>, ReadError>
    ensures ok { ReadsItems result (λ p. numeral (unsigned p.0) ∷ numeral (unsigned p.1) ∷ [])
        (is_natural ∷ is_natural ∷ []) depth reader.old reader.new }
    ensures err { NotJsonOnlyIfNone result (items_of depth reader.old) }
    ensures shorter { LeavesNoMore result reader.old reader.new }
{
    let Some(first) = next_item(reader)? else {
        return Ok(None);
    };
    let one = natural(first, reader, depth)?;
    let two = last_natural(reader, depth)?;
    Ok(both(one, two))
}

/// The last item of an array, which is a natural number below 2 ^ 64.
#[inline(always)]
fn last_natural<'a>(reader: &mut Reader<'a>, depth: usize) -> Result<Option<u64>, ReadError>
    ensures ok { ReadsItems result (λ n. numeral (unsigned n) ∷ []) (is_natural ∷ []) depth reader.old reader.new }
    ensures err { NotJsonOnlyIfNone result (items_of depth reader.old) }
    ensures shorter { LeavesNoMore result reader.old reader.new }
{
    let Some(first) = next_item(reader)? else {
        return Ok(None);
    };
    let one = natural(first, reader, depth)?;
    if ends(reader, depth)? {
        Ok(one)
    } else {
        Ok(None)
    }
}

/// Whether an array ends here. What is left of it is passed over.
#[inline(always)]
fn ends(reader: &mut Reader<'_>, depth: usize) -> Result<bool, ReadError>
    ensures ok { IfOk result (λ o. (ds : Items) × (items_of depth reader.old ≡ Some (ds, reader.new)) × (o ≡ pass_row [] ds)) }
    ensures err { NotJsonOnlyIfNone result (items_of depth reader.old) }
    ensures shorter { LeavesNoMore result reader.old reader.new }
{
    if reader.take_end_array() {
        return Ok(true);
    }
    let further = next_token(reader)?;
    pass(further, reader, depth)?;
    pass_items(reader, depth)?;
    Ok(false)
}
