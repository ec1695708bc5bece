//! A tree as data: a unit with types, among which a structure that refers to itself, and a function with a lexical
//! block.

/// The value of an attribute.
pub(crate) enum Given {
    Address(u64),
    Data1(u8),
    Data2(u16),
    Data4(u32),
    Unsigned(u64),
    Signed(i64),
    Text(&'static [u8]),
    Reference(usize),
    SectionOffset(u32),
    LocationList(u64),
    RangeList(u64),
    Flag(bool),
    Present,
    Expression(&'static [u8]),
}

/// An item: an entry, or the null entry if the tag is 0.
pub(crate) struct Row {
    pub tag: u16,
    pub children: bool,
    pub attributes: &'static [(u16, Given)],
}

const NULL: Row = Row {
    tag: 0,
    children: false,
    attributes: &[],
};

/// The items. A name counts up to its first zero byte.
pub(crate) static ROWS: &[Row] = &[
    Row {
        tag: 0x11,
        children: true,
        attributes: &[
            (0x13, Given::Data2(0x1d)),
            (3, Given::Text(b"t.c\0d")),
            (0x10, Given::SectionOffset(0)),
            (0x11, Given::Address(0)),
            (0x12, Given::Data4(0x18)),
            (0x8c, Given::SectionOffset(12)),
            (0x74, Given::SectionOffset(12)),
        ],
    },
    Row {
        tag: 0x24,
        children: false,
        attributes: &[
            (3, Given::Text(b"long")),
            (0x0b, Given::Data1(8)),
            (0x3e, Given::Data1(5)),
        ],
    },
    Row {
        tag: 0x13,
        children: true,
        attributes: &[(3, Given::Text(b"n")), (0x0b, Given::Unsigned(16))],
    },
    Row {
        tag: 0x0d,
        children: false,
        attributes: &[
            (3, Given::Text(b"next")),
            (0x49, Given::Reference(5)),
            (0x38, Given::Unsigned(0)),
        ],
    },
    NULL,
    Row {
        tag: 0x0f,
        children: false,
        attributes: &[(0x0b, Given::Data1(8)), (0x49, Given::Reference(2))],
    },
    Row {
        tag: 4,
        children: true,
        attributes: &[(0x0b, Given::Unsigned(4))],
    },
    Row {
        tag: 0x28,
        children: false,
        attributes: &[(3, Given::Text(b"low")), (0x1c, Given::Signed(-1))],
    },
    NULL,
    Row {
        tag: 0x13,
        children: false,
        attributes: &[(3, Given::Text(b"hidden")), (0x3c, Given::Present)],
    },
    Row {
        tag: 0x2e,
        children: true,
        attributes: &[
            (3, Given::Text(b"f")),
            (0x3f, Given::Flag(true)),
            (0x11, Given::Address(0x10)),
            (0x12, Given::Data4(8)),
            (0x40, Given::Expression(&[0x9c])),
        ],
    },
    Row {
        tag: 0x34,
        children: false,
        attributes: &[
            (3, Given::Text(b"p")),
            (0x49, Given::Reference(5)),
            (2, Given::LocationList(0)),
        ],
    },
    Row {
        tag: 0x0b,
        children: true,
        attributes: &[(0x55, Given::RangeList(0))],
    },
    Row {
        tag: 0x34,
        children: false,
        attributes: &[
            (3, Given::Text(b"p")),
            (0x49, Given::Reference(1)),
            (2, Given::LocationList(1)),
        ],
    },
    NULL,
    NULL,
    NULL,
];
