// The fields of a line, one after the other.
ghost use Rattle.std.specs.Prelude.{◌≡◌, [], ◌∷◌, Ok, Err, MatchResult};
ghost use Rattle.std.specs.Fn.{FnOnceReturnsAt};
ghost use Rattle.std.specs.Iterator.{YieldsFirstRef, item_count};
ghost use Rattle.faults.specs.declared.Why.TheVariants.{Form};
ghost use Rattle.decimals.specs.Decimals.{decimal_of};
ghost use Rattle.cuts.specs.Cuts.{split};
ghost use Rattle.cuts.specs.Fields.{comma, form_at, status_of, letter_of, left, Takes, Stuck, Further, Faulty};

use crate::pieces::cut;
use decimals::read_decimal;
use faults::{Malformed, Spot, Why, at};

// A wrong, missing or surplus field.
pub fn malformed(field: u64) -> Spot
    ensures { result ≡ form_at field }
{
    Spot {
        why: Why::Form,
        field,
    }
}

// Whether a status field says live.
pub fn read_status(field: &[u8]) -> Result<bool, Malformed>
    ensures { result ≡ status_of field.now }
{
    match field {
        [b'0'] => Ok(false),
        [b'1'] => Ok(true),
        _ => Err(Malformed),
    }
}

// The only byte of a field, as the letter that it stands for.
pub fn read_letter(field: &[u8]) -> Option<char>
    ensures { result ≡ letter_of field.now }
{
    match field {
        [byte] => Some(char::from(*byte)),
        _ => None,
    }
}

// What is left of a line, from a field on; nothing behind the last field. The library's `split` would carry its closure's
// type wherever fields are named.
#[derive(Drop)]
pub struct Fields<'a> {
    rest: Option<&'a [u8]>,
}

impl<'a> Fields<'a> {
    // The first field of a line, and the others.
    pub fn of(line: &'a [u8]) -> (&'a [u8], Fields<'a>)
        ensures { split comma line.now ≡ result.0.now ∷ left result.1 }
    {
        let (first, rest) = cut(line, b',');
        (first, Fields { rest })
    }

    // The next field, which has to be one that `read` accepts.
    fn accepted<T, E, F>(&mut self, field: u64, read: F) -> Result<&'a [u8], Spot>
    where
        T: Drop,
        F: FnOnce(&[u8]) -> Result<T, E>,
        Why: From<E>,
        requires { F.IsAlwaysCallable read }
        ensures { MatchResult result (λ t. (left self.old ≡ t.now ∷ left self.new) × ((x : T) × FnOnceReturnsAt F.FnOnce read t.now (Ok x))) (λ s. (s.field ≡ field) × Faulty (left self.old) (s ≡ form_at field) (λ p. (e : E) × FnOnceReturnsAt F.FnOnce read p (Err e) × bound-2.from_gives e s.why)) }
    {
        let piece = self.next().ok_or(malformed(field))?;
        let _ = at(field, read(piece))?;
        Ok(piece)
    }

    // The next field, which has to be a number.
    pub fn number(&mut self, field: u64) -> Result<&'a [u8], Spot>
        ensures { MatchResult result (λ t. Takes decimal_of (left self.old) t.now (left self.new)) (λ e. (e ≡ form_at field) × Stuck decimal_of (left self.old)) }
    {
        self.accepted(field, read_decimal)
    }

    // The next field, which has to be a status.
    pub fn status(&mut self, field: u64) -> Result<&'a [u8], Spot>
        ensures { MatchResult result (λ t. Takes status_of (left self.old) t.now (left self.new)) (λ e. (e ≡ form_at field) × Stuck status_of (left self.old)) }
    {
        self.accepted(field, read_status)
    }

    // No further field, which would have this number.
    pub fn end(self, field: u64) -> Result<(), Spot>
        ensures { MatchResult result (λ _. left self.entry ≡ []) (λ e. (e ≡ form_at field) × Further (left self.entry)) }
    {
        self.rest.is_none().then_some(()).ok_or(malformed(field))
    }
}

// The fields that are left.
impl<'a> Iterator for Fields<'a> {
    type Item = &'a [u8];

    ghost next_gives = { YieldsFirstRef left };

    ghost remaining = { item_count left };

    fn next(&mut self) -> Option<&'a [u8]> {
        let (field, rest) = cut(self.rest?, b',');
        self.rest = rest;
        Some(field)
    }
}
