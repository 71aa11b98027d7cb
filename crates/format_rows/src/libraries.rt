ghost use Rattle.std.specs.Prelude.{◌≡◌, ◌∷◌, ◌<◌, [], false, IfOk};
ghost use Rattle.pds_lib.specs.Stow.{is_named, last_name};

use crate::samples::{RECORDS, sample};
use le_bytes::{Items, LibFault, Name};
use pds_lib::{AliasAt, Entry, LibKind, LibStop, Library, Member, StowFault, Version};
use std::alloc::{AllocError, Global};
use std::test::Fail;

fn fault_of(alloc: Global, image: Vec<u8>) -> Option<LibStop> {
    Library::read(alloc, image).err()
}

#[test]
fn sample_is_one_member_of_four_records(rt: HostRuntime) -> Result<(), Fail> {
    let library = Library::read(rt.alloc(), sample(rt.alloc())?)?;
    let name = Name::from_text("TEMPNAME").ok_or("a name")?;
    let entry = *library.find(&name).ok_or("an entry")?;
    let wanted = Entry {
        name,
        main: name,
        alias: false,
        attr: 0,
        length: 8,
        entry: 0,
        entry_section: 1,
    };
    assert!(rt; entry == wanted);
    assert_eq!(rt; library.entries().len(), 1);
    let records = library.records(&entry);
    assert_eq!(rt; records.count(), 4);
    assert_eq!(rt; records.get(3).ok_or("record 3")?, &RECORDS[50..58]);
    assert!(rt; records.get(5).is_none());
    Ok(())
}

#[test]
fn first_fault_of_an_image(rt: HostRuntime) -> Result<(), Fail> {
    let cases = [
        (8usize, 0x03u8, LibFault::BadHeader),
        (33, 0x07, LibFault::BadEntry(1, 1)),
        (32, 0x02, LibFault::BadEntry(1, 1)),
        (325, 0x07, LibFault::BadRecord(4)),
    ];
    for (at, byte, fault) in cases {
        let mut image = sample(rt.alloc())?;
        if let Some(place) = image.get_mut(at) {
            *place = byte;
        }
        assert!(rt; fault_of(rt.alloc(), image) == Some(LibStop::Bad(fault)));
    }
    Ok(())
}

#[test]
fn a_second_member_of_one_name(rt: HostRuntime) -> Result<(), Fail> {
    let mut library = Library::empty(rt.alloc(), LibKind::Modules, Version::One);
    library.stow(rt.alloc(), without_records(rt.alloc()), false)?;
    assert_eq!(rt; library.entries().len(), 1);
    let again = library.stow(rt.alloc(), without_records(rt.alloc()), false);
    assert!(rt; again == Err(StowFault::Exists(Name(*b"ABCDEFGH"))));
    Ok(())
}

fn without_records(alloc: Global) -> Member
    ensures { result ≡ record { name = record { 0 = 65 ∷ 66 ∷ 67 ∷ 68 ∷ 69 ∷ 70 ∷ 71 ∷ 72 ∷ [] }; aliases = []; attr = 0; length = 0; entry = 0; entry_section = 0; records = [] } }
{
    Member {
        name: Name(*b"ABCDEFGH"),
        aliases: Items::new(alloc),
        attr: 0,
        length: 0,
        entry: 0,
        entry_section: 0,
        records: Items::new(alloc),
    }
}

/// A member without records and with one alias, whose names are one letter each.
fn member(alloc: Global, name: u8, alias: u8) -> Result<Member, StowFault>
    requires name { name < 255 }
    requires alias { alias < 255 }
    ensures named { IfOk result (λ m. is_named m last_name ≡ false) }
    ensures records { IfOk result (λ m. m.records ≡ []) }
    ensures length { IfOk result (λ m. m.length ≡ 0) }
    ensures entry { IfOk result (λ m. m.entry ≡ 0) }
    ensures aliases { IfOk result (λ m. m.aliases ≡ record { name = record { 0 = alias ∷ alias ∷ alias ∷ alias ∷ alias ∷ alias ∷ alias ∷ alias ∷ [] }; entry = 0; entry_section = 0 } ∷ []) }
{
    let mut aliases = Items::new(alloc);
    aliases.push(AliasAt {
        name: Name([alias; 8]),
        entry: 0,
        entry_section: 0,
    })?;
    Ok(Member {
        name: Name([name; 8]),
        aliases,
        attr: 0,
        length: 0,
        entry: 0,
        entry_section: 0,
        records: Items::new(alloc),
    })
}

/// A member of `name` stowed into a library of A, with the alias X, and B, with the alias Y.
fn stowed_third(
    alloc: Global,
    name: u8,
    alias: u8,
    replace: bool,
) -> Result<(Library, Option<StowFault>), StowFault>
    requires name { name < 255 }
    requires alias { alias < 255 }
{
    let mut library = Library::empty(alloc, LibKind::Modules, Version::One);
    library.stow(alloc, member(alloc, b'A', b'X')?, false)?;
    library.stow(alloc, member(alloc, b'B', b'Y')?, false)?;
    let answer = library
        .stow(alloc, member(alloc, name, alias)?, replace)
        .err();
    Ok((library, answer))
}

/// The letter of each entry and that of its main entry.
fn letters(alloc: Global, library: &Library) -> Result<Vec<u8>, AllocError> {
    let mut letters = Vec::new(alloc);
    for e in library.entries() {
        letters.push(e.name.0[0])?;
        letters.push(e.main.0[0])?;
    }
    Ok(letters)
}

fn exists(letter: u8) -> Option<StowFault> {
    Some(StowFault::Exists(Name([letter; 8])))
}

#[test]
fn aliases_of_a_third_member(rt: HostRuntime) -> Result<(), Fail> {
    let cases = [
        (b'C', b'X', true, None, "AABBCCXCYB"),
        (b'C', b'X', false, exists(b'X'), "AABBXAYB"),
        (b'A', b'Z', true, None, "AABBYBZA"),
        (b'A', b'Z', false, exists(b'A'), "AABBXAYB"),
        (b'C', b'B', true, exists(b'B'), "AABBXAYB"),
        (b'X', b'Z', true, None, "AABBXXYBZX"),
        (b'C', b'C', true, exists(b'C'), "AABBXAYB"),
    ];
    for (name, alias, replace, answer, wanted) in cases {
        if name == 255 || alias == 255 {
            return Err("a letter".into());
        }
        let (library, fault) = stowed_third(rt.alloc(), name, alias, replace)?;
        assert!(rt; fault == answer);
        assert!(rt; letters(rt.alloc(), &library)?.as_slice() == wanted.as_bytes());
    }
    Ok(())
}
