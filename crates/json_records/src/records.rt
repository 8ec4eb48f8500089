//! Records: objects whose keys are known, read into a table of their fields.
ghost use Rattle.std.specs.Prelude.{◌≡◌, ◌∷◌, List, Option, is_some, map, length, Some, None, true, false, MatchOption, IfOk};
ghost use Rattle.json.specs.Reads.{token_of};
ghost use Rattle.serde_json.specs.Data.{Data, Members, object};
ghost use Rattle.json_records.specs.Fields.{AreHeld, Puts, is_known, is_record, members_under};
ghost use Rattle.json_records.specs.Order.{rise_above};
ghost use Rattle.json_records.specs.Reading.{data_of};
ghost use Rattle.json_records.specs.Readers.{NotJsonOnlyIfNoData, LeavesNoMore};

use crate::error::{ReadError, next_member};
use crate::lists::Reads;
use crate::passing::pass;
use crate::scalars::{is_same, open_object};
use json::{Reader, Token};
use std::alloc::Global;

/// The fields of a record, which are read one by one, in any order.
pub trait Fields<K>: Sized {
    ghost use Rattle.std.specs.Prelude.{Bool, List, Option};
    ghost use Rattle.serde_json.specs.Data.{Data};
    ghost use Rattle.std.specs.Prelude.{◌≡◌, map, Some, is_some, false, MatchOption};
    ghost use Rattle.std.specs.List.{list_all};

    ghost tests: { List (Data → Bool) };

    ghost held: { Self → List (Option Data) };

    ghost means: { Self.Values → List Data };

    /// The values of all fields, one before those behind it.
    type Values;

    /// The fields before anything was read.
    fn none() -> Self
        ensures { held result ≡ map (λ t. None) tests };

    /// Reads the value of a member into the field of that name, whose first token the second one is, and says whether there is
    /// such a field; if not, nothing is read.
    ///
    /// # Errors
    ///
    /// `NotJson`: no JSON value begins there. `Memory`: nothing is said of it.
    fn take<'a>(
        &mut self,
        alloc: Global,
        names: &[&str],
        member: (&'a str, Token<'a>),
        reader: &mut Reader<'a>,
        depth: usize,
    ) -> Result<bool, ReadError>
        requires { length names.now ≡ length tests }
        ensures taken { result ≡ Ok true → (d : Data) × (data_of depth (token_of member.entry.1 ∷ reader.old) ≡ Some (d, reader.new))
            × Puts (map (λ s. s.now) names.now) tests member.entry.0.now d (held self.old) (held self.new) }
        ensures other { result ≡ Ok false → (is_known member.entry.0.now (map (λ s. s.now) names.now) ≡ false) × (reader.new ≡ reader.old) }
        ensures err { NotJsonOnlyIfNoData result depth member.entry.1 reader.old }
        ensures shorter { LeavesNoMore result reader.old reader.new };

    /// The values, where each field holds one.
    fn values(self) -> Option<Self::Values>
        ensures { MatchOption result (list_all is_some (held self) ≡ false) (λ v. held self ≡ map (λ d. Some d) (means v)) };
}

/// No field.
#[derive(Drop)]
pub struct End;

/// A field, which holds what was read under its name last, and those behind it.
#[derive(Drop)]
pub struct And<A, R> {
    pub first: Option<A>,
    pub rest: R,
}

impl<K> Fields<K> for End {
    ghost use Rattle.std.specs.Prelude.{[]};

    ghost tests = { [] };

    ghost held = { λ e. [] };

    ghost means = { λ v. [] };

    type Values = ();

    fn none() -> End {
        End
    }

    fn take<'a>(
        &mut self,
        _alloc: Global,
        _names: &[&str],
        _member: (&'a str, Token<'a>),
        _reader: &mut Reader<'a>,
        _depth: usize,
    ) -> Result<bool, ReadError> {
        Ok(false)
    }

    fn values(self) -> Option<()> {
        Some(())
    }
}

impl<K: Reads<A>, A: Drop, R: Fields<K> + Drop> Fields<K> for And<A, R> {
    ghost use Rattle.std.specs.Prelude.{◌∷◌, option_map};

    ghost tests = { K.Reads.can ∷ R.Fields.tests };

    ghost held = { λ f. option_map K.Reads.form f.first ∷ R.Fields.held f.rest };

    ghost means = { λ v. K.Reads.form v.0 ∷ R.Fields.means v.1 };

    type Values = (A, R::Values);

    fn none() -> And<A, R> {
        And {
            first: None,
            rest: R::none(),
        }
    }

    fn take<'a>(
        &mut self,
        alloc: Global,
        names: &[&str],
        member: (&'a str, Token<'a>),
        reader: &mut Reader<'a>,
        depth: usize,
    ) -> Result<bool, ReadError> {
        let (key, first) = member;
        if is_same(key, names[0]) {
            self.first = K::read(alloc, first, reader, depth)?;
            return Ok(true);
        }
        self.rest.take(alloc, &names[1..], member, reader, depth)
    }

    fn values(self) -> Option<(A, R::Values)> {
        let And { first, rest } = self;
        let Some(value) = first else {
            return None;
        };
        match rest.values() {
            Some(others) => Some((value, others)),
            None => None,
        }
    }
}

/// The values of the fields of the object that begins with the token; none where it is no object with exactly these names as
/// keys, which are in the order of keys, or a value can't be read. Of a key that occurs twice the last value counts.
pub fn read_record<'a, K, F: Fields<K> + Drop>(
    alloc: Global,
    names: &[&str],
    first: Token<'a>,
    reader: &mut Reader<'a>,
    depth: usize,
) -> Result<Option<F::Values>, ReadError>
    requires fields { length names.now ≡ length F.Fields.tests }
    requires order { rise_above None (map (λ s. s.now) names.now) ≡ true }
    ensures ok { IfOk result (λ o. (d : Data) × (data_of depth (token_of first.entry ∷ reader.old) ≡ Some (d, reader.new))
        × MatchOption o (is_record (map (λ s. s.now) names.now) F.Fields.tests d ≡ false)
        (λ v. d ≡ object (members_under (map (λ s. s.now) names.now) (map (λ e. Some e) (F.Fields.means v))))) }
    ensures err { NotJsonOnlyIfNoData result depth first.entry reader.old }
    ensures shorter { LeavesNoMore result reader.old reader.new }
{
    match read_fields::<K, F>(alloc, names, first, reader, depth)? {
        Some(fields) => Ok(fields.values()),
        None => Ok(None),
    }
}

/// The fields of the object that begins with the token, of which each holds the last value under its name; none where it is no
/// object, or has another key than these names, which are in the order of keys.
fn read_fields<'a, K, F: Fields<K> + Drop>(
    alloc: Global,
    names: &[&str],
    first: Token<'a>,
    reader: &mut Reader<'a>,
    depth: usize,
) -> Result<Option<F>, ReadError>
    requires fields { length names.now ≡ length F.Fields.tests }
    requires order { rise_above None (map (λ s. s.now) names.now) ≡ true }
    ensures ok { IfOk result (λ o. (d : Data) × (data_of depth (token_of first.entry ∷ reader.old) ≡ Some (d, reader.new))
        × MatchOption o (is_record (map (λ s. s.now) names.now) F.Fields.tests d ≡ false)
        (λ f. (ms : Members) × (d ≡ object ms) × AreHeld (map (λ s. s.now) names.now) F.Fields.tests (F.Fields.held f) ms)) }
    ensures err { NotJsonOnlyIfNoData result depth first.entry reader.old }
    ensures shorter { LeavesNoMore result reader.old reader.new }
{
    let Some(depth) = open_object(first, reader, depth)? else {
        return Ok(None);
    };
    let mut fields = F::none();
    let mut strays = false;
    while let Some(member) = next_member(reader)? {
        if !fields.take(alloc, names, member, reader, depth)? {
            pass(member.1, reader, depth)?;
            strays = true;
        }
    }
    if strays {
        return Ok(None);
    }
    Ok(Some(fields))
}
