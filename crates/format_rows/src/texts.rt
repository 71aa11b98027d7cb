//! Every line at least once, and the lines of a few programs.
use le_bytes::{
    CardWhat, Counted, EventWhat, LibFault, Name, PlaceWhat, RecWhat, Refusal, Spot, StartWhat,
    SymbolWhat, WordWhat,
};
use map_list::{
    Line, push_dump, push_entry, push_linked, push_number, push_unresolved, refusal_text,
};
use std::test::Fail;

const SYSLIN: Name = Name([0xE2, 0xE8, 0xE2, 0xD3, 0xC9, 0xD5, 0x40, 0x40]);

const SYSLMOD: Name = Name([0xE2, 0xE8, 0xE2, 0xD3, 0xD4, 0xD6, 0xC4, 0x40]);

const SUB2: Name = Name([0xE2, 0xE4, 0xC2, 0xF2, 0x40, 0x40, 0x40, 0x40]);

const TEMPNAME: Name = Name([0xE3, 0xC5, 0xD4, 0xD7, 0xD5, 0xC1, 0xD4, 0xC5]);

const SPACED: Name = Name([0xC1, 0x40, 0xC2, 0x40, 0x40, 0x40, 0x40, 0x40]);

#[test]
fn a_card_is_refused_by_its_place_and_fault(rt: HostRuntime) -> Result<(), Fail> {
    let spot = Spot {
        set: SYSLIN,
        member: None,
        number: 120,
    };
    for (what, words) in [
        (CardWhat::ShortCard, "SHORTCARD"),
        (CardWhat::UnknownCard, "UNKNOWNCARD"),
        (CardWhat::BadCount, "BADCOUNT"),
        (CardWhat::BadEsdType, "BADESDTYPE"),
        (CardWhat::BadFlag, "BADFLAG"),
        (CardWhat::BadEsdid, "BADESDID"),
        (CardWhat::UnknownEsdid, "UNKNOWNESDID"),
        (CardWhat::TextOutside, "TEXTOUTSIDE"),
        (CardWhat::ConstantOutside, "CONSTANTOUTSIDE"),
        (CardWhat::LabelOutside, "LABELOUTSIDE"),
        (CardWhat::EntryOutside, "ENTRYOUTSIDE"),
        (CardWhat::ConstantsOverlap, "CONSTANTSOVERLAP"),
        (CardWhat::ReservedName, "RESERVEDNAME"),
        (CardWhat::NoEnd, "NOEND"),
        (CardWhat::UnknownOperation, "UNKNOWNOPERATION"),
        (CardWhat::BadOperand(7), "BADOPERAND 7"),
        (CardWhat::NoContinuation, "NOCONTINUATION"),
        (CardWhat::TooMany, "TOOMANY"),
        (CardWhat::NoModule, "NOMODULE"),
        (CardWhat::EditNotThere(SUB2), "EDITNOTTHERE SUB2"),
        (CardWhat::EditClash(SUB2), "EDITCLASH SUB2"),
        (CardWhat::NoSuchDd(SUB2), "NOSUCHDD SUB2"),
        (CardWhat::BadDd(SUB2), "BADDD SUB2"),
        (CardWhat::MemberAbsent(SUB2), "MEMBERABSENT SUB2"),
        (CardWhat::NotHere, "NOTHERE"),
        (CardWhat::NoOvly, "NOOVLY"),
        (CardWhat::RegionNameUsed(SUB2), "REGIONNAMEUSED SUB2"),
    ] {
        let line = refusal_text(rt.alloc(), &Line::Refused(Refusal::Card(spot, what)))?;
        let mut expected = Vec::from_slice(rt.alloc(), b"REFUSED CARD SYSLIN 120 ")?;
        expected.extend_from_slice(words.as_bytes())?;
        expected.extend_from_slice(b"\n")?;
        assert_eq!(rt; line.as_slice(), expected.as_slice());
    }
    Ok(())
}

#[test]
fn a_record_is_refused_by_its_member(rt: HostRuntime) -> Result<(), Fail> {
    let spot = Spot {
        set: SYSLMOD,
        member: Some(SUB2),
        number: 0,
    };
    for (what, word) in [
        (RecWhat::UnknownId, "UNKNOWNID"),
        (RecWhat::BadLength, "BADLENGTH"),
        (RecWhat::BadType, "BADTYPE"),
        (RecWhat::BadFlag, "BADFLAG"),
        (RecWhat::BadOrder, "BADORDER"),
        (RecWhat::BadEsdid, "BADESDID"),
        (RecWhat::SectionOutside, "SECTIONOUTSIDE"),
        (RecWhat::BadEntryPoint, "BADENTRYPOINT"),
        (RecWhat::BadScatter, "BADSCATTER"),
        (RecWhat::TextOutside, "TEXTOUTSIDE"),
        (RecWhat::ConstantOutside, "CONSTANTOUTSIDE"),
        (RecWhat::ConstantsOverlap, "CONSTANTSOVERLAP"),
        (RecWhat::NoEnd, "NOEND"),
    ] {
        let line = refusal_text(rt.alloc(), &Line::Refused(Refusal::Module(spot, what)))?;
        let mut expected = Vec::from_slice(rt.alloc(), b"REFUSED RECORD SYSLMOD(SUB2) 0 ")?;
        expected.extend_from_slice(word.as_bytes())?;
        expected.extend_from_slice(b"\n")?;
        assert_eq!(rt; line.as_slice(), expected.as_slice());
    }
    Ok(())
}

#[test]
fn every_other_refusal_has_its_line(rt: HostRuntime) -> Result<(), Fail> {
    for (refused, text) in [
        (
            Line::Refused(Refusal::SetAbsent(SYSLIN)),
            "REFUSED SET SYSLIN ABSENT\n",
        ),
        (
            Line::Refused(Refusal::TooLong(SYSLIN)),
            "REFUSED SET SYSLIN TOOLONG\n",
        ),
        (
            Line::Refused(Refusal::NotLibrary(SYSLMOD)),
            "REFUSED SET SYSLMOD NOTLIBRARY\n",
        ),
        (
            Line::Refused(Refusal::BadEvent(2)),
            "REFUSED EVENTS LINE 2\n",
        ),
        (Line::Refused(Refusal::NoSection), "REFUSED NOSECTION\n"),
        (
            Line::Refused(Refusal::MemberExists(SUB2)),
            "REFUSED MEMBER SUB2 EXISTS\n",
        ),
        (
            Line::Refused(Refusal::MemberAbsent(Name::BLANK)),
            "REFUSED MEMBER  ABSENT\n",
        ),
        (
            Line::Refused(Refusal::Library(SYSLMOD, LibFault::BadHeader)),
            "REFUSED LIBRARY SYSLMOD BADHEADER\n",
        ),
        (
            Line::Refused(Refusal::Library(SYSLMOD, LibFault::BadDirectory(7))),
            "REFUSED LIBRARY SYSLMOD BADDIRECTORY 7\n",
        ),
        (
            Line::Refused(Refusal::Library(SYSLMOD, LibFault::BadEntry(3, 4))),
            "REFUSED LIBRARY SYSLMOD BADENTRY 3 4\n",
        ),
        (
            Line::Refused(Refusal::Library(SYSLMOD, LibFault::BadRecord(7))),
            "REFUSED LIBRARY SYSLMOD BADRECORD 7\n",
        ),
        (
            Line::Refused(Refusal::Overlay(SYSLMOD, SUB2, StartWhat::BadSegtab)),
            "REFUSED OVERLAY SYSLMOD(SUB2) BADSEGTAB\n",
        ),
        (
            Line::Refused(Refusal::Overlay(SYSLMOD, SUB2, StartWhat::BadNoteList(7))),
            "REFUSED OVERLAY SYSLMOD(SUB2) BADNOTELIST 7\n",
        ),
        (
            Line::Refused(Refusal::Symbol(SUB2, SymbolWhat::Unresolved)),
            "REFUSED SYMBOL SUB2 UNRESOLVED\n",
        ),
        (
            Line::Refused(Refusal::Symbol(SUB2, SymbolWhat::DoubleDefinition)),
            "REFUSED SYMBOL SUB2 DOUBLEDEFINITION\n",
        ),
        (
            Line::Refused(Refusal::Symbol(SUB2, SymbolWhat::EntryUnknown)),
            "REFUSED SYMBOL SUB2 ENTRYUNKNOWN\n",
        ),
        (
            Line::Refused(Refusal::Symbol(SUB2, SymbolWhat::InsertUnknown)),
            "REFUSED SYMBOL SUB2 INSERTUNKNOWN\n",
        ),
        (
            Line::Refused(Refusal::Symbol(SUB2, SymbolWhat::ExclusiveValid)),
            "REFUSED SYMBOL SUB2 EXCLUSIVEVALID\n",
        ),
        (
            Line::Refused(Refusal::Symbol(SUB2, SymbolWhat::ExclusiveInvalid)),
            "REFUSED SYMBOL SUB2 EXCLUSIVEINVALID\n",
        ),
        (
            Line::Refused(Refusal::Limit(Counted::Symbols, 16_777_216)),
            "REFUSED LIMIT SYMBOLS 16777216\n",
        ),
        (
            Line::Refused(Refusal::Limit(Counted::Includes, 16_777_216)),
            "REFUSED LIMIT INCLUDES 16777216\n",
        ),
        (
            Line::Refused(Refusal::Limit(Counted::IncludeDepth, 16_777_216)),
            "REFUSED LIMIT INCLUDEDEPTH 16777216\n",
        ),
        (
            Line::Refused(Refusal::Limit(Counted::Segments, 16_777_216)),
            "REFUSED LIMIT SEGMENTS 16777216\n",
        ),
        (
            Line::Refused(Refusal::Limit(Counted::Regions, 16_777_216)),
            "REFUSED LIMIT REGIONS 16777216\n",
        ),
        (
            Line::Refused(Refusal::Limit(Counted::Entries, 16_777_216)),
            "REFUSED LIMIT ENTRIES 16777216\n",
        ),
        (
            Line::Refused(Refusal::Limit(Counted::Registers, 16_777_216)),
            "REFUSED LIMIT REGISTERS 16777216\n",
        ),
        (
            Line::Refused(Refusal::Limit(Counted::ModuleLength, 16_777_216)),
            "REFUSED LIMIT MODULELENGTH 16777216\n",
        ),
        (
            Line::Refused(Refusal::Limit(Counted::Records, 16_777_216)),
            "REFUSED LIMIT RECORDS 16777216\n",
        ),
        (
            Line::Refused(Refusal::Limit(Counted::ImageLength, 16_777_216)),
            "REFUSED LIMIT IMAGELENGTH 16777216\n",
        ),
        (
            Line::Refused(Refusal::Place(PlaceWhat::BadOrigin)),
            "REFUSED PLACE BADORIGIN\n",
        ),
        (
            Line::Refused(Refusal::Place(PlaceWhat::NoStorage(SUB2))),
            "REFUSED PLACE NOSTORAGE SUB2\n",
        ),
        (
            Line::Refused(Refusal::Place(PlaceWhat::NotScatter)),
            "REFUSED PLACE NOTSCATTER\n",
        ),
        (
            Line::Refused(Refusal::Event(1, EventWhat::NoSuchPlace)),
            "REFUSED EVENT 1 NOSUCHPLACE\n",
        ),
        (
            Line::Refused(Refusal::Event(1, EventWhat::NotResident(7))),
            "REFUSED EVENT 1 NOTRESIDENT 7\n",
        ),
        (
            Line::Refused(Refusal::Event(1, EventWhat::NotVcon)),
            "REFUSED EVENT 1 NOTVCON\n",
        ),
        (
            Line::Refused(Refusal::Event(1, EventWhat::Unresolved(SUB2))),
            "REFUSED EVENT 1 UNRESOLVED SUB2\n",
        ),
        (
            Line::Refused(Refusal::Event(1, EventWhat::BadEntab(0x1030))),
            "REFUSED EVENT 1 BADENTAB 001030\n",
        ),
        (
            Line::Refused(Refusal::Event(1, EventWhat::BadRecord(7))),
            "REFUSED EVENT 1 BADRECORD 7\n",
        ),
        (
            Line::Refused(Refusal::Event(1, EventWhat::OutOfSection)),
            "REFUSED EVENT 1 OUTOFSECTION\n",
        ),
        (
            Line::Refused(Refusal::Event(1, EventWhat::TouchesConstant)),
            "REFUSED EVENT 1 TOUCHESCONSTANT\n",
        ),
        (Line::Words(3, WordWhat::NoCommand), "WORDS 3 NOCOMMAND\n"),
        (
            Line::Words(3, WordWhat::UnknownCommand),
            "WORDS 3 UNKNOWNCOMMAND\n",
        ),
        (
            Line::Words(3, WordWhat::NotKeyValue),
            "WORDS 3 NOTKEYVALUE\n",
        ),
        (Line::Words(3, WordWhat::Repeated), "WORDS 3 REPEATED\n"),
        (Line::Words(3, WordWhat::NotUsed), "WORDS 3 NOTUSED\n"),
        (Line::Words(3, WordWhat::Excluded), "WORDS 3 EXCLUDED\n"),
        (Line::Words(3, WordWhat::BadValue), "WORDS 3 BADVALUE\n"),
        (
            Line::Words(3, WordWhat::Missing(SUB2)),
            "WORDS 3 MISSING SUB2\n",
        ),
    ] {
        let line = refusal_text(rt.alloc(), &refused)?;
        assert_eq!(rt; line.as_slice(), text.as_bytes());
    }
    Ok(())
}

#[test]
fn a_program_is_told_in_lines(rt: HostRuntime) -> Result<(), Fail> {
    let mut out = Vec::new(rt.alloc());
    push_linked(&mut out, &TEMPNAME, 8, 0)?;
    push_unresolved(&mut out, &SPACED)?;
    push_entry(&mut out, 0x1000)?;
    push_entry(&mut out, 0xFF_FFFF)?;
    push_entry(&mut out, 0x100_0000)?;
    push_number(&mut out, 67_108_864)?;
    assert_eq!(rt;
        out.as_slice(),
        b"LINKED TEMPNAME LENGTH 000008 ENTRY 000000\nUNRESOLVED A B\nENTRY 001000\nENTRY ffffff\nENTRY 01000000\n67108864".as_slice()
    );
    Ok(())
}

#[test]
fn a_dump_has_a_line_for_each_sixteen_bytes(rt: HostRuntime) -> Result<(), Fail> {
    let mut out = Vec::new(rt.alloc());
    push_dump(&mut out, 0x1000, &[0, 0, 0, 0, 0, 0, 0x10, 4])?;
    push_dump(&mut out, 0x3000, &[])?;
    push_dump(
        &mut out,
        0,
        &[
            0, 0, 0, 8, 0, 0, 0, 0, 0, 0, 0, 0x10, 0, 0, 0, 0, 0xC3, 0xC3, 0xC3, 0xC3,
        ],
    )?;
    assert_eq!(rt;
        out.as_slice(),
        b"001000 0000000000001004\n000000 00000008000000000000001000000000\n000010 c3c3c3c3\n".as_slice()
    );
    Ok(())
}
