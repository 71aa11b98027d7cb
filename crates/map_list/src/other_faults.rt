//! The words of what may be wrong with a word of the command line, a library, a symbol or a count.
ghost use Rattle.std.specs.Prelude.{◌≡◌};
ghost use Rattle.map_list.specs.OtherFaults.{word_words, library_words, symbol_words, count_word};
ghost use Rattle.map_list.specs.Words.{texts_of};

use crate::words::{Value, Words};
use le_bytes::{Counted, LibFault, SymbolWhat, WordWhat};

/// Why a word of the command line is refused.
pub(crate) fn word_words(what: WordWhat) -> Words
    ensures { texts_of result ≡ word_words what }
{
    match what {
        WordWhat::NoCommand => Words::alone("NOCOMMAND"),
        WordWhat::UnknownCommand => Words::alone("UNKNOWNCOMMAND"),
        WordWhat::NotKeyValue => Words::alone("NOTKEYVALUE"),
        WordWhat::Repeated => Words::alone("REPEATED"),
        WordWhat::NotUsed => Words::alone("NOTUSED"),
        WordWhat::Excluded => Words::alone("EXCLUDED"),
        WordWhat::BadValue => Words::alone("BADVALUE"),
        WordWhat::Missing(name) => Words::with("MISSING", Value::Named(name)),
    }
}

/// The fault of a library image.
pub(crate) fn library_words(what: LibFault) -> Words
    ensures { texts_of result ≡ library_words what }
{
    match what {
        LibFault::BadHeader => Words::alone("BADHEADER"),
        LibFault::BadDirectory(n) => Words::with("BADDIRECTORY", Value::Number(n)),
        LibFault::BadEntry(block, place) => Words::with("BADENTRY", Value::Pair(block, place)),
        LibFault::BadRecord(n) => Words::with("BADRECORD", Value::Number(n)),
    }
}

/// Why a symbol is refused.
pub(crate) fn symbol_words(what: SymbolWhat) -> Words
    ensures { texts_of result ≡ symbol_words what }
{
    match what {
        SymbolWhat::Unresolved => Words::alone("UNRESOLVED"),
        SymbolWhat::DoubleDefinition => Words::alone("DOUBLEDEFINITION"),
        SymbolWhat::EntryUnknown => Words::alone("ENTRYUNKNOWN"),
        SymbolWhat::InsertUnknown => Words::alone("INSERTUNKNOWN"),
        SymbolWhat::ExclusiveValid => Words::alone("EXCLUSIVEVALID"),
        SymbolWhat::ExclusiveInvalid => Words::alone("EXCLUSIVEINVALID"),
    }
}

/// What is counted.
pub(crate) fn count_word(what: Counted) -> &'static str
    ensures { result.now ≡ count_word what }
{
    match what {
        Counted::Symbols => "SYMBOLS",
        Counted::Includes => "INCLUDES",
        Counted::IncludeDepth => "INCLUDEDEPTH",
        Counted::Segments => "SEGMENTS",
        Counted::Regions => "REGIONS",
        Counted::Entries => "ENTRIES",
        Counted::Registers => "REGISTERS",
        Counted::ModuleLength => "MODULELENGTH",
        Counted::Records => "RECORDS",
        Counted::ImageLength => "IMAGELENGTH",
    }
}
