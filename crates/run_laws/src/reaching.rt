//! Addresses that calls reach: each function's contract is a law.
ghost use Rattle.run_laws.specs.EntryTables.{DirectAddressesAreInNoTable, EntriesAreReadBack, OneTableIsFound};

/// At most one entry table of resident segments has an address: of an address in such a table, that
/// table is found.
pub fn one_table_is_found()
    ensures { OneTableIsFound }
{}

/// The address of a section or label in a resident segment is in no entry table, also where the label
/// stands at the end of the last section before one.
pub fn direct_addresses_are_in_no_table()
    ensures { DirectAddressesAreInNoTable }
{}

/// Each entry of a table that stands as it is linked is read back: it is an entry, and tells the
/// segment and the address of its symbol.
pub fn entries_are_read_back()
    ensures { EntriesAreReadBack }
{}
