//! The records of a library in memory as a source.
use crate::source::RecordSource;
use le_io::{Failed, Store};
use pds_lib::Records;

/// Records that a library lends: they are told, they touch no store, and none of their calls fails. A number from 1 to
/// the count always finds its record.
impl<'a, S: Store> RecordSource<S> for Records<'a> {
    ghost use Rattle.std.specs.Prelude.{Some, length};
    ghost use Rattle.lib_stream.specs.Sources.{length_of};
    ghost use Rattle.lib_stream.specs.Agreed.{own_records, no_fewer};

    ghost list = { λ records _. Some records };

    ghost faults = { λ _ _. 0 };

    ghost total = { λ records. length records };

    ghost lengths = { length_of };

    ghost agrees = { λ records _. own_records records };

    ghost stands = { λ _ _ _ _. no_fewer 0 };

    fn count(&self) -> u32 {
        Records::count(self)
    }

    fn length(&self, n: u32) -> u32 {
        Records::length(self, n).unwrap_or(0)
    }

    fn record(&mut self, _s: &mut S, n: u32) -> Result<&[u8], Failed> {
        self.get(n).ok_or(Failed)
    }

    fn stage(&mut self, _s: &mut S, _n: u32) -> Result<(), Failed> {
        Ok(())
    }

    fn release(&mut self, _n: u32) {}
}
