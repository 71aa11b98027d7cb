//! One card of the input and what stands in it.
ghost use Rattle.std.specs.Prelude.{◌≡◌, ◌≤◌};
ghost use Rattle.obj_cards.specs.Flags.{field_length, is_branch, is_minus};
ghost use Rattle.obj_cards.specs.Rld.{is_shared};

use le_bytes::Name;

/// What an item of the external symbol dictionary is.
#[derive(Clone, Copy, Debug, PartialEq, Eq)]
pub enum EsdKind {
    /// A section definition: a control section with a name.
    Sd,
    /// A label definition: a name at a place of a section.
    Ld,
    /// An external reference.
    Er,
    /// Private code: a control section without a name.
    Pc,
    /// A common area.
    Cm,
    /// A pseudo-register.
    Pr,
    /// A weak external reference.
    Wx,
}

/// An item of the external symbol dictionary. A field that its kind does not have is 0, and private
/// code has the blank name.
#[derive(Clone, Copy, Debug, PartialEq, Eq)]
pub struct EsdItem {
    /// The name of the section, label, reference, common area or register.
    pub name: Name,
    /// What the item is.
    pub kind: EsdKind,
    /// The assembled address of a section (SD, PC) or of a label (LD), below 2 to the power of 24.
    pub address: u32,
    /// The alignment of a pseudo-register in bytes, less one: 0, 1, 3 or 7.
    pub align: u8,
    /// The length in bytes of a section, common area or register. For a label it is the ESDID of its
    /// section.
    pub length: u32,
}

impl EsdItem {
    /// What stands in the places of an ESD card that are not in use.
    pub const UNUSED: EsdItem = EsdItem {
        name: Name([0x40; 8]),
        kind: EsdKind::Sd,
        address: 0,
        align: 0,
        length: 0,
    };
}

/// What stands in the places that are not in use.
impl Default for EsdItem {
    ghost use Rattle.std.specs.Prelude.{◌≡◌};
    ghost use Rattle.obj_cards.specs.Esd.{unused_esd};

    ghost is_default = { λ v. v ≡ unused_esd };

    fn default() -> EsdItem {
        EsdItem::UNUSED
    }
}

/// A card of the external symbol dictionary.
#[derive(Clone, Copy, Debug, PartialEq, Eq)]
pub struct EsdCard {
    /// The number in columns 15 and 16: the ESDID of the first item that is no label. The items that
    /// are no labels are numbered from it on.
    pub esdid: u32,
    /// How many items are in use: 1 to 3.
    pub count: u8,
    /// The items. Those from `count` on are `EsdItem::UNUSED`.
    pub items: [EsdItem; 3],
}

impl EsdCard {
    /// A card with no items in use.
    pub const UNUSED: EsdCard = EsdCard {
        esdid: 0,
        count: 0,
        items: [EsdItem::UNUSED; 3],
    };
}

/// A card of text.
#[derive(Clone, Copy, Debug, PartialEq, Eq)]
pub struct TxtCard {
    /// The assembled address of the first byte.
    pub address: u32,
    /// The ESDID of the section that the text belongs to.
    pub esdid: u32,
    /// How many bytes are in use: 0 to 56.
    pub count: u8,
    /// The text. The bytes from `count` on are zero.
    pub bytes: [u8; 56],
}

impl TxtCard {
    /// A card with no text in use.
    pub const UNUSED: TxtCard = TxtCard {
        address: 0,
        esdid: 0,
        count: 0,
        bytes: [0; 56],
    };
}

/// What stands in the places that are not in use.
impl Default for TxtCard {
    ghost use Rattle.std.specs.Prelude.{◌≡◌};
    ghost use Rattle.obj_cards.specs.Txt.{unused_txt_card};

    ghost is_default = { λ v. v ≡ unused_txt_card };

    fn default() -> TxtCard {
        TxtCard::UNUSED
    }
}

/// An item of the relocation dictionary: one term of an address constant.
#[derive(Clone, Copy, Debug, PartialEq, Eq)]
pub struct CardRld {
    /// The relocation pointer: the ESDID of what the term refers to.
    pub r: u32,
    /// The position pointer: the ESDID of the section that holds the constant.
    pub p: u32,
    /// Kind, length and sign of the term. The lowest bit is on where the card omits the pointers of
    /// the next item, since they are those of this one.
    pub flag: u8,
    /// The assembled address of the constant.
    pub address: u32,
}

impl CardRld {
    /// What stands in the places of an RLD card that are not in use.
    pub const UNUSED: CardRld = CardRld {
        r: 0,
        p: 0,
        flag: 0,
        address: 0,
    };

    /// Whether the constant is of V-type: a branch.
    pub fn is_branch(&self) -> bool
        ensures { result ≡ is_branch self.now.flag }
    {
        self.flag / 16 == 1
    }

    /// The length of the constant in bytes, 1 to 4.
    pub fn field_length(&self) -> u8
        ensures value { result ≡ field_length self.now.flag }
        ensures some { 1 ≤ result }
        ensures most { result ≤ 4 }
    {
        self.flag / 4 % 4 + 1
    }

    /// Whether the term is subtracted.
    pub fn is_minus(&self) -> bool
        ensures { result ≡ is_minus self.now.flag }
    {
        self.flag / 2 % 2 == 1
    }

    /// Whether the next item has the same pointers, which the card omits.
    pub fn shares_pointers(&self) -> bool
        ensures { result ≡ is_shared self.now.flag }
    {
        self.flag & 0x01 == 0x01
    }
}

/// What stands in the places that are not in use.
impl Default for CardRld {
    ghost use Rattle.std.specs.Prelude.{◌≡◌};
    ghost use Rattle.obj_cards.specs.Rld.{unused_rld};

    ghost is_default = { λ v. v ≡ unused_rld };

    fn default() -> CardRld {
        CardRld::UNUSED
    }
}

/// A card of the relocation dictionary.
#[derive(Clone, Copy, Debug, PartialEq, Eq)]
pub struct RldCard {
    /// How many items are in use: 0 to 13.
    pub count: u8,
    /// The items, each with its pointers. Those from `count` on are `CardRld::UNUSED`.
    pub items: [CardRld; 13],
}

impl RldCard {
    /// A card with no items in use.
    pub const UNUSED: RldCard = RldCard {
        count: 0,
        items: [CardRld::UNUSED; 13],
    };
}

/// Where an END card says that the program begins.
#[derive(Clone, Copy, Debug, PartialEq, Eq)]
pub enum EndStart {
    /// It does not say.
    None,
    /// At an assembled address of the section with an ESDID.
    At(u32, u32),
    /// At an external name.
    Named(Name),
}

/// The last card of an object module.
#[derive(Clone, Copy, Debug, PartialEq, Eq)]
pub struct EndCard {
    /// The entry point.
    pub start: EndStart,
    /// The length in bytes, below 2 to the power of 24, of the section that the dictionary gives
    /// without one.
    pub length: Option<u32>,
}

/// A card: one of the five kinds of object cards, a control statement, or a comment.
#[derive(Clone, Copy, Debug, PartialEq, Eq)]
pub enum Card {
    /// External symbols.
    Esd(EsdCard),
    /// Text.
    Txt(TxtCard),
    /// Address constants.
    Rld(RldCard),
    /// The end of an object module.
    End(EndCard),
    /// Symbols for testing, which are not looked at.
    Sym,
    /// A card of a control statement, all of its 80 columns.
    Statement([u8; 80]),
    /// A comment.
    Comment,
}
