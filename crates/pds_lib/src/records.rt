//! The records of one member.
ghost use Rattle.std.specs.Prelude.{◌≡◌, ◌-◌, ◌==◌, ◌<◌, ◌^◌, length, slice_get, if◌then◌else◌};
ghost use Rattle.std.specs.Option.{option_copied, option_map};

use le_bytes::Bytes;
use pds_directory::{Span, part};
use std::marker::Model;

/// Records that lie in an image, or that were stowed.
#[derive(Clone, Copy)]
pub(crate) enum Form<'a> {
    Read(&'a [u8], &'a [Span]),
    Given(&'a [Bytes]),
}

/// The records of a member, lent by its library.
#[derive(Drop)]
pub struct Records<'a> {
    form: Form<'a>,
}

impl<'a> Model for Records<'a> {
    ghost use Rattle.std.specs.Prelude.{List, ℕ, ◌<◌, ◌^◌, length};
    ghost use Rattle.pds_lib.specs.Forms.{seen, AreShort};

    ghost Value = { List (List ℕ) };

    ghost view = { λ r. seen r.form };

    ghost invariant = { λ r. (length (seen r.form) < 2 ^ 24) × AreShort (seen r.form) };
}

impl<'a> Records<'a> {
    ghost use Rattle.std.specs.Prelude.{◌≡◌, ◌-◌, ◌==◌, ◌<◌, ◌^◌, length, slice_get, if◌then◌else◌};
    ghost use Rattle.std.specs.Option.{option_copied, option_map};
    ghost use Rattle.pds_lib.specs.Forms.{seen, AreShort};

    pub(crate) fn new(form: Form<'a>) -> Records<'a>
        requires few { length (seen form) < 2 ^ 24 }
        requires short { AreShort (seen form) }
        ensures { result ≡ seen form.entry }
    {
        Records { form }
    }

    /// The number of records, at most 16,777,215.
    pub fn count(&self) -> u32
        ensures count { result ≡ length self.now }
        ensures few { result < 2 ^ 24 }
    {
        match self.form {
            Form::Read(_, places) => places.len() as u32,
            Form::Given(records) => records.len() as u32,
        }
    }

    /// Record `n`, counted from 1; None exactly where n is not from 1 to the count.
    pub fn get(&self, n: u32) -> Option<&[u8]>
        ensures { option_copied result ≡ (if n == 0 then None else slice_get self.now (n - 1)) }
    {
        if n == 0 {
            return None;
        }
        let k = n as usize - 1;
        match self.form {
            Form::Read(image, places) => match places.get(k) {
                Some(s) => Some(part(image, *s)),
                None => None,
            },
            Form::Given(records) => match records.get(k) {
                Some(r) => Some(r.as_slice()),
                None => None,
            },
        }
    }

    /// What holds of the lengths of all records, for the proofs of callers. Does nothing.
    fn are_short(&self)
        ensures { AreShort self.now }
    {
        let _ = &self.form;
    }

    /// The length of record `n` in bytes; None exactly where n is not from 1 to the count.
    #[tactic(auto, using(crate::proofs::Short::nth_short))]
    pub fn length(&self, n: u32) -> Option<u32>
        ensures { result ≡ (if n == 0 then None else option_map length (slice_get self.now (n - 1))) }
    {
        self.are_short();
        match self.get(n) {
            None => None,
            Some(bytes) => Some(bytes.len() as u32),
        }
    }
}
