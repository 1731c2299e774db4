// The types that helper.rs and parse.rs of the crate share with everything above them.
#![tactic(auto)]

ghost use Rattle.std.specs.Prelude.{◌<◌, ◌≡◌};
ghost use Rattle.kinds.specs.Kind.{container_of, is_indirection, inside_kind, children_level};
ghost use Rattle.kinds.specs.Level.{indirection, container_include_fields};
ghost use Rattle.kinds.specs.Name.{is_name_byte, verify_name};
ghost use Rattle.kinds.specs.Primitive.{kind_of, code_bytes, code, is_object, equivalent, size_in, entry};
ghost use Rattle.kinds.specs.Container.{start_byte, end_byte, prefix_byte};
ghost use Rattle.kinds.specs.Sheet.{is_container_kind};
ghost use Rattle.kinds.specs.Parse.{unknown_digit};
ghost use Rattle.kinds.specs.Refusal.{number, container_word, values, words};
ghost use Rattle.kinds.specs.declared.Refusal.TheVariants.{Parse};

// The kind words of a sheet from 24 on; below are the primitives, of which there are so many. Numbers, since C fills sheets with them.
pub const PRIMITIVES: u64 = 24;

pub const BIT_FIELD: u64 = 24;

pub const TYPED_BIT_FIELD: u64 = 25;

pub const POINTER: u64 = 26;

pub const ATOMIC: u64 = 27;

pub const ARRAY: u64 = 28;

pub const STRUCT: u64 = 29;

pub const UNION: u64 = 30;

pub const NONE: u64 = 31;

// The kind words of the one group of primitives that are compared as equals.
const OBJECT: u64 = 19;

const BLOCK: u64 = 20;

const CLASS: u64 = 21;

// The most bytes of a text, nodes of a sheet and name bytes of a sheet.
pub const MAX_TEXT: usize = 2000;

pub const MAX_NODES: u64 = 2001;

pub const MAX_NAMES: u64 = 2000;

#[derive(Clone, Copy, Debug, PartialEq, Eq)]
pub enum NestingLevel {
    Top,
    Within,
    Bottom,
}

#[derive(Clone, Copy, Debug, PartialEq, Eq)]
pub enum IndirectionKind {
    Atomic,
    Pointer,
}

#[derive(Clone, Copy, Debug, PartialEq, Eq)]
pub enum ContainerKind {
    Struct,
    Union,
}

#[derive(Clone, Copy, Debug, PartialEq, Eq)]
pub enum Primitive {
    Char,
    Short,
    Int,
    Long,
    LongLong,
    UChar,
    UShort,
    UInt,
    ULong,
    ULongLong,
    Float,
    Double,
    LongDouble,
    FloatComplex,
    DoubleComplex,
    LongDoubleComplex,
    Bool,
    Void,
    String,
    Object,
    Block,
    Class,
    Sel,
    Unknown,
}

// The code of a primitive: one byte or two. A kind that is no primitive has none.
#[derive(Clone, Copy)]
pub enum Code {
    Empty,
    One(u8),
    Two(u8, u8),
}

// Why text cannot be read; `SurplusZero` is of strict reading alone.
#[derive(Clone, Copy, Debug, PartialEq, Eq)]
pub enum ErrorKind {
    UnexpectedEnd,
    Unknown(u8),
    UnknownAfterComplex(u8),
    ExpectedInteger,
    IntegerTooLarge,
    WrongEndArray,
    WrongEndContainer(ContainerKind),
    InvalidIdentifier(ContainerKind),
    NotAllConsumed,
    SurplusZero,
}

// Why text cannot be read, and the place in it (parse.rs, `ParseError`).
#[derive(Clone, Copy)]
pub struct ParseError {
    pub kind: ErrorKind,
    pub split_point: usize,
}

// Why an input is turned away: document 01's 1 to 6, and 7 to 15 with their place; of signatures 16 and 17 with their place, and 18; of strict reading 19
// with its place; of size 20; of the layout 21 with the number of a node.
#[derive(Clone, Copy, Debug, PartialEq, Eq)]
pub enum Refusal {
    TextTooLong,
    ListTooShort,
    NotASheet,
    BadName,
    OutputTooShort,
    SizeTooLarge,
    Parse(ErrorKind, usize),
    ExpectedOffset(usize),
    OffsetTooLarge(usize),
    EmptySignature,
    NoSuchRow,
    BitFieldInLayout(usize),
}

impl NestingLevel {
    // The level that every comparison starts from.
    pub fn new() -> Self
        ensures { result ≡ NestingLevel.Top }
    {
        Self::Top
    }

    pub fn bitfield(self) -> Self
        ensures { result ≡ self }
    {
        // A bitfield holds an integral type, which shows the same at every level.
        self
    }

    pub fn indirection(self, kind: IndirectionKind) -> Self
        ensures { result ≡ indirection kind self }
    {
        match kind {
            IndirectionKind::Atomic => NestingLevel::Bottom,
            IndirectionKind::Pointer => match self {
                NestingLevel::Top => NestingLevel::Within,
                NestingLevel::Within => NestingLevel::Bottom,
                NestingLevel::Bottom => NestingLevel::Bottom,
            },
        }
    }

    pub fn array(self) -> Self
        ensures { result ≡ self }
    {
        // An item shows as much as its array.
        self
    }

    pub fn container_include_fields(self) -> Option<NestingLevel>
        ensures { result ≡ container_include_fields self }
    {
        match self {
            NestingLevel::Top => Some(NestingLevel::Within),
            NestingLevel::Within => Some(NestingLevel::Within),
            NestingLevel::Bottom => None,
        }
    }

    // The level of the children of a node of this kind.
    pub fn inside(self, kind: u64) -> Self
        ensures { result ≡ inside_kind kind self }
    {
        if kind == POINTER {
            return self.indirection(IndirectionKind::Pointer);
        }
        if kind == ATOMIC {
            return self.indirection(IndirectionKind::Atomic);
        }
        if is_container(kind) {
            return NestingLevel::Within;
        }
        self
    }

    // The same, or that a node of this kind does not show its children.
    pub fn children(self, kind: u64) -> Option<NestingLevel>
        ensures { result ≡ children_level kind self }
    {
        if is_container(kind) {
            return self.container_include_fields();
        }
        Some(self.inside(kind))
    }
}

impl IndirectionKind {
    pub fn prefix_byte(self) -> u8
        ensures { result ≡ prefix_byte self }
    {
        match self {
            IndirectionKind::Pointer => b'^',
            IndirectionKind::Atomic => b'A',
        }
    }
}

impl ContainerKind {
    pub fn start_byte(self) -> u8
        ensures { result ≡ start_byte self }
    {
        match self {
            ContainerKind::Struct => b'{',
            ContainerKind::Union => b'(',
        }
    }

    pub fn end_byte(self) -> u8
        ensures { result ≡ end_byte self }
    {
        match self {
            ContainerKind::Struct => b'}',
            ContainerKind::Union => b')',
        }
    }
}

impl ContainerKind {
    // The kind word of a container in a sheet.
    pub fn kind(self) -> u64
        ensures { result ≡ container_word (Some self) }
    {
        match self {
            ContainerKind::Struct => STRUCT,
            ContainerKind::Union => UNION,
        }
    }
}

// The number of the refusal of which a digit is told apart: no type starts with this byte.
const UNKNOWN: u64 = 8;

// The table of refusals, in C's numbers, as in specs/Refusal.antt: number, place, byte and container, 0 where there is none. A refusal more is its
// name in an enum, a row here and a row there.
impl ErrorKind {
    // The row of what is refused by this at a place.
    pub fn words(self, at: usize) -> [u64; 4]
        ensures { result ≡ words (Refusal.Parse self at) }
    {
        let place = at as u64;
        match self {
            ErrorKind::UnexpectedEnd => [7, place, 0, 0],
            ErrorKind::Unknown(b) => [UNKNOWN, place, u64::from(b), 0],
            ErrorKind::UnknownAfterComplex(b) => [9, place, u64::from(b), 0],
            ErrorKind::ExpectedInteger => [10, place, 0, 0],
            ErrorKind::IntegerTooLarge => [11, place, 0, 0],
            ErrorKind::WrongEndArray => [12, place, 0, 0],
            ErrorKind::WrongEndContainer(k) => [13, place, 0, k.kind()],
            ErrorKind::InvalidIdentifier(k) => [14, place, 0, k.kind()],
            ErrorKind::NotAllConsumed => [15, place, 0, 0],
            ErrorKind::SurplusZero => [19, place, 0, 0],
        }
    }
}

impl Refusal {
    pub fn words(self) -> [u64; 4]
        ensures { result ≡ words self }
    {
        match self {
            Refusal::TextTooLong => [1, 0, 0, 0],
            Refusal::ListTooShort => [2, 0, 0, 0],
            Refusal::NotASheet => [3, 0, 0, 0],
            Refusal::BadName => [4, 0, 0, 0],
            Refusal::OutputTooShort => [5, 0, 0, 0],
            Refusal::SizeTooLarge => [6, 0, 0, 0],
            Refusal::Parse(e, at) => e.words(at),
            Refusal::ExpectedOffset(at) => [16, at as u64, 0, 0],
            Refusal::OffsetTooLarge(at) => [17, at as u64, 0, 0],
            Refusal::EmptySignature => [18, 0, 0, 0],
            Refusal::NoSuchRow => [20, 0, 0, 0],
            Refusal::BitFieldInLayout(node) => [21, node as u64, 0, 0],
        }
    }

    // Document 01's number.
    pub fn number(self) -> u64
        ensures { result ≡ number self }
    {
        let row = self.words();
        row[0]
    }

    // Place, byte and container, 0 where the refusal carries none.
    pub fn values(self) -> [u64; 3]
        ensures { result ≡ values self }
    {
        let row = self.words();
        [row[1], row[2], row[3]]
    }
}

impl From<ParseError> for Refusal {
    ghost from_gives = { λ e r. r ≡ Parse e.kind e.split_point };

    fn from(e: ParseError) -> Refusal {
        Refusal::Parse(e.kind, e.split_point)
    }
}

// A digit stands where a type should begin: refusal 8, with a digit. Read off the one table of C's numbers, so that a refusal more is one row.
#[tactic(auto, unfolding(crate::specs::Parse::unknown_digit, crate::specs::Byte::is_digit))]
pub fn unknown_digit(why: ErrorKind) -> bool
    ensures { result ≡ unknown_digit why }
{
    let row = why.words(0);
    // the byte, from '0' to '9'
    row[0] == UNKNOWN && 48 <= row[2] && row[2] <= 57
}

impl Primitive {
    pub fn to_str(self) -> Code
        ensures { code_bytes result ≡ code (kind_of self) }
    {
        primitive_code(self.kind())
    }

    // The kind word of the primitive in a sheet: C's number, so it stands beside each name and does not hang on their order.
    pub fn kind(self) -> u64
        ensures { result ≡ kind_of self }
    {
        match self {
            Primitive::Char => 0,
            Primitive::Short => 1,
            Primitive::Int => 2,
            Primitive::Long => 3,
            Primitive::LongLong => 4,
            Primitive::UChar => 5,
            Primitive::UShort => 6,
            Primitive::UInt => 7,
            Primitive::ULong => 8,
            Primitive::ULongLong => 9,
            Primitive::Float => 10,
            Primitive::Double => 11,
            Primitive::LongDouble => 12,
            Primitive::FloatComplex => 13,
            Primitive::DoubleComplex => 14,
            Primitive::LongDoubleComplex => 15,
            Primitive::Bool => 16,
            Primitive::Void => 17,
            Primitive::String => 18,
            Primitive::Object => 19,
            Primitive::Block => 20,
            Primitive::Class => 21,
            Primitive::Sel => 22,
            Primitive::Unknown => 23,
        }
    }

    // Whether `other` is among the primitives that this one is compared as.
    pub fn equivalents(self, other: Primitive) -> bool
        ensures { result ≡ equivalent (kind_of self) (kind_of other) }
    {
        equivalent_kinds(self.kind(), other.kind())
    }

    // Its size in a row.
    pub fn size(self, row: u64) -> Option<u64>
        ensures { result ≡ size_in row (kind_of self) }
    {
        primitive_size(row, self.kind())
    }
}

// The bytes of the codes; a space where there is no second byte. Tables by kind keep the order of `Primitive`, which 01 fixes for the
// sheet; where a byte is read or written, the order of Apple's guide holds (`codes::start`).
const FIRST_BYTES: [u8; 24] = *b"csilqCSILQfdDjjjBv*@@#:?";

const SECOND_BYTES: [u8; 24] = *b"             fdD    ?   ";

// `Primitive::to_str` on kind words.
pub fn primitive_code(kind: u64) -> Code
    ensures { code_bytes result ≡ code kind }
{
    if PRIMITIVES <= kind {
        return Code::Empty;
    }
    let k = kind as usize;
    let a = FIRST_BYTES[k];
    let b = SECOND_BYTES[k];
    if b == b' ' {
        return Code::One(a);
    }
    Code::Two(a, b)
}

// The rows of sizes: 0 is 64-bit Apple ARM, 1 is x86_64, 2 is 32-bit ARM, 3 is 0 with the long of Apple's guide.
pub const ROWS: u64 = 4;

// The sizes of the primitives in each row, in the order of `Primitive`; 0 for none.
pub const SIZES: [[u8; 24]; 4] = [
    *b"\x01\x02\x04\x08\x08\x01\x02\x04\x08\x08\x04\x08\x08\x08\x10\x10\x01\x00\x08\x08\x08\x08\x08\x00",
    *b"\x01\x02\x04\x08\x08\x01\x02\x04\x08\x08\x04\x08\x10\x08\x10\x20\x01\x00\x08\x08\x08\x08\x08\x00",
    *b"\x01\x02\x04\x04\x08\x01\x02\x04\x04\x08\x04\x08\x08\x08\x10\x10\x01\x00\x04\x04\x04\x04\x04\x00",
    *b"\x01\x02\x04\x04\x08\x01\x02\x04\x08\x08\x04\x08\x08\x08\x10\x10\x01\x00\x08\x08\x08\x08\x08\x00",
];

// A number of the table. One row alone is taken out of it, since the compiler puts what is indexed on the stack.
fn table_entry(row: u64, kind: usize) -> u8
    requires { (row < 4) × (kind < 24) }
    ensures { entry result ≡ size_in row kind }
{
    if row == 0 {
        let sizes = SIZES[0];
        return sizes[kind];
    }
    if row == 1 {
        let sizes = SIZES[1];
        return sizes[kind];
    }
    if row == 2 {
        let sizes = SIZES[2];
        return sizes[kind];
    }
    let sizes = SIZES[3];
    sizes[kind]
}

// `Primitive::size` on kind words.
pub fn primitive_size(row: u64, kind: u64) -> Option<u64>
    ensures { result ≡ size_in row kind }
{
    if ROWS <= row {
        return None; // no such row
    }
    if PRIMITIVES <= kind {
        return None; // no primitive
    }
    let n = u64::from(table_entry(row, kind as usize));
    if n == 0 {
        return None;
    }
    Some(n)
}

// Object, Block and Class, by their kind words.
#[tactic(auto, unfolding(crate::specs::Primitive::is_object, crate::specs::Byte::among))]
pub fn is_object(kind: u64) -> bool
    ensures { result ≡ is_object kind }
{
    kind == OBJECT || kind == BLOCK || kind == CLASS
}

// `Primitive::equivalents` on kind words; a kind that is no primitive is equivalent to itself alone.
#[tactic(auto, unfolding(crate::specs::Primitive::equivalent))]
pub fn equivalent_kinds(p: u64, q: u64) -> bool
    ensures { result ≡ equivalent p q }
{
    p == q || is_object(p) && is_object(q)
}

// Struct and union, by their kind words.
pub fn is_container(kind: u64) -> bool
    ensures { result ≡ is_container_kind kind }
{
    kind == STRUCT || kind == UNION
}

// Which of the two a container's kind word names; any other kind word goes with the union's.
pub fn container_of(kind: u64) -> ContainerKind
    ensures { result ≡ container_of kind }
{
    if kind == STRUCT {
        return ContainerKind::Struct;
    }
    ContainerKind::Union
}

// Pointer and atomic, by their kind words.
pub fn is_indirection(kind: u64) -> bool
    ensures { result ≡ is_indirection kind }
{
    kind == POINTER || kind == ATOMIC
}

// An ASCII letter, digit or underscore.
#[tactic(auto, unfolding(crate::specs::Name::is_name_byte, crate::specs::Byte::is_digit))]
pub fn is_name_byte(b: u8) -> bool
    ensures { result ≡ is_name_byte b }
{
    b.is_ascii_alphanumeric() || b == b'_'
}

// Whether a struct's or union's name is `?` or an identifier.
pub fn verify_name(name: &[u8]) -> bool
    ensures { result ≡ verify_name name.now }
{
    match name {
        [] => false,
        [b'?'] => true,
        _ => name.iter().all(|b| is_name_byte(*b)),
    }
}
