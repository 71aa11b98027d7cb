//! What gives the records of a member.
ghost use Rattle.std.specs.Prelude.{◌≡◌, ℕ, ◌≤◌, Bool, true, false, List, Option, length, IfOk, IsOk};
ghost use Rattle.std.specs.Borrow.{sem};
ghost use Rattle.std.specs.Io.BufRead.{Rests};
ghost use Rattle.le_io.specs.Counts.{WhereTold, NoneFalls};
ghost use Rattle.lib_stream.specs.Sources.{IsRecordNumber, IsRecord, AreRecords, SameRecords, SameHeld, HasCause, StageHolds, ReleaseHolds};

use le_io::{Failed, Store};

/// The records of one member, by number from 1.
///
/// A source holds no store: the store is handed to each call beside it, and what the source means rests on both as they
/// are then. It may tell its records, and it has a number of faults that no call lowers. It may keep records that are
/// staged, and a record that it holds never fails. No call changes what the store tells, nor the list, the number and
/// the lengths of the records.
pub trait RecordSource<S: Store> {
    /// The records, where the source tells them.
    ghost list: { Self → S → Option (List (List ℕ)) };

    /// A number that rises where a call fails, and that no call lowers.
    ghost faults: { Self → S → ℕ };

    /// How many records there are.
    ghost total: { Self → ℕ };

    /// The length of each record in bytes, by its number.
    ghost lengths: { Self → ℕ → ℕ };

    /// Whether records that are staged are kept.
    ghost keeps: { Self → Bool } = { λ _. false };

    /// The numbers of the records that are held.
    ghost held: { Self → ℕ → Bool } = { λ _ _. false };

    /// The number of records.
    fn count(&self) -> u32
        ensures total { result ≡ total self.now };

    /// The length of record `n` in bytes.
    fn length(&self, n: u32) -> u32
        requires number { IsRecordNumber (total self.now) n }
        ensures length { result ≡ lengths self.now n };

    /// Record `n`: that of the list where it is told, and else no more bytes than its length. What is held stays.
    ///
    /// # Errors
    /// Failed: the record could not be read, and the number of faults rose. A record that is held never fails.
    fn record(&mut self, s: &mut S, n: u32) -> Result<&[u8], Failed>
        requires number { IsRecordNumber (total self.old) n }
        ensures told { WhereTold (list self.old s.old) (λ records. IfOk result (λ bytes. IsRecord records n bytes.now)) }
        ensures within { IfOk result (λ bytes. length bytes.now ≤ lengths self.old n) }
        ensures held { held self.old n ≡ true → IsOk result }
        ensures store { S.told s.new ≡ S.told s.old }
        ensures counts { NoneFalls (S.counts s.old) (S.counts s.new) }
        ensures* after { sem 𝓛 (Rests Self.row self.entry (λ new.
            SameRecords (list self.old s.old) (list new s.new) (total self.old) (total new) (lengths self.old) (lengths new)
            × SameHeld (keeps self.old) (keeps new) (held self.old) (held new)
            × HasCause (faults self.old s.old) (faults new s.new) (S.counts s.old) (S.counts s.new) result)) };

    /// Reads record `n` ahead of the call that will ask for it, where the source keeps what is staged, and holds it then.
    ///
    /// # Errors
    /// Failed: the record could not be read, and the number of faults rose. What is held is as before.
    fn stage(&mut self, s: &mut S, n: u32) -> Result<(), Failed>
        requires number { IsRecordNumber (total self.old) n }
        ensures held { StageHolds (keeps self.old) (held self.old) (held self.new) n result }
        ensures keeps { keeps self.new ≡ keeps self.old }
        ensures records { SameRecords (list self.old s.old) (list self.new s.new) (total self.old) (total self.new) (lengths self.old) (lengths self.new) }
        ensures cause { HasCause (faults self.old s.old) (faults self.new s.new) (S.counts s.old) (S.counts s.new) result }
        ensures store { S.told s.new ≡ S.told s.old }
        ensures counts { NoneFalls (S.counts s.old) (S.counts s.new) };

    /// Holds record `n` no longer.
    fn release(&mut self, n: u32)
        requires number { IsRecordNumber (total self.old) n }
        ensures held { ReleaseHolds (held self.old) (held self.new) n }
        ensures keeps { keeps self.new ≡ keeps self.old }
        ensures list { (s : S) → list self.new s ≡ list self.old s }
        ensures total { total self.new ≡ total self.old }
        ensures lengths { (m : ℕ) → lengths self.new m ≡ lengths self.old m }
        ensures faults { (s : S) → faults self.new s ≡ faults self.old s };

    /// Where the records are told, there are so many of these lengths.
    ghost agrees: { (source : Self) (s : S) → WhereTold (list source s) (λ records. AreRecords records (total source) (lengths source)) };

    /// No call of the store alone lowers the number of faults.
    ghost stands: { (source : Self) (old new : S) → NoneFalls (S.counts old) (S.counts new) → faults source old ≤ faults source new };
}
