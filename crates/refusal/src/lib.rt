// Why a call or a unit of the stream is refused: one case for each number of document 01's table and of document 02's, named by what is
// wrong.
// A patch is document 01's correction sheet.
#![tactic(auto)]

ghost use Rattle.std.specs.Prelude.{◌≡◌};
ghost use Rattle.refusal.specs.Number.{number};

use std::error::Error;
use std::fmt;

#[derive(Clone, Copy, Debug, PartialEq, Eq)]
pub enum Reason {
    // Window, ring length, register widths, control or open draw break the rules.
    InvalidState = 1,
    // The XF words are not 4,184.
    XfMemoryLength = 2,
    // The vertex buffer has under 129 bytes.
    VertexBufferShort = 3,
    // Control bit 0 is clear.
    ReadDisabled = 4,
    // Control bit 4 is set.
    LinkedMode = 5,
    // The opcode is none of the table.
    UnknownOpcode = 6,
    // The CP address is none of the table.
    UnknownCpAddress = 7,
    // An XF load goes past 4,184.
    XfLoadPastEnd = 8,
    // A draw without a position.
    PositionAbsent = 9,
    // A present attribute in a format that is none.
    UnknownFormat = 10,
    // A feed longer than the free room.
    FeedTooLong = 11,
    // A patch's masks or numbers are not 256.
    PatchLength = 12,
    // A patch names register FE or gives it a number.
    PatchOfMaskRegister = 13,
    // A patch's mask is above FFFFFF.
    PatchMaskTooWide = 14,
    // A patch's number sets a bit outside its mask.
    PatchNumberOutsideMask = 15,
    // The output is shorter than what is written.
    OutputShort = 16,
    // The hardware offset is odd, not listed, or not to be read or written.
    UnknownOffset = 17,
    // The command to write is a vertex or has a field out of range.
    UnwritableCommand = 18,
    // The attribute number is above 20, or the vertex has not the layout's length.
    NotOfLayout = 19,
    // A count of a recording is wrong, or its stream is too long.
    WrongCount = 20,
    // A number of a recording is too wide for its register.
    NumberTooWide = 21,
    // A recording is cut short, or cut inside a number.
    FileShort = 22,
    // A recording has bytes after its stream.
    FileLong = 23,
}

// The reason's number in documents 01 and 02.
impl From<Reason> for u8 {
    ghost from_gives = { λ reason n. n ≡ number reason };

    fn from(reason: Reason) -> u8 {
        reason as u8
    }
}

impl From<Reason> for u32 {
    ghost from_gives = { λ reason n. n ≡ number reason };

    fn from(reason: Reason) -> u32 {
        reason as u32
    }
}

// What is wrong, in words.
impl fmt::Display for Reason {
    fn fmt<W: fmt::Write>(&self, f: &mut fmt::Formatter<W>) -> fmt::Result {
        let words = match self {
            Reason::InvalidState => "the state breaks its rules",
            Reason::XfMemoryLength => "the xf words are not 4,184",
            Reason::VertexBufferShort => "the vertex buffer is too short",
            Reason::ReadDisabled => "reading is disabled",
            Reason::LinkedMode => "linked mode",
            Reason::UnknownOpcode => "unknown opcode",
            Reason::UnknownCpAddress => "unknown cp address",
            Reason::XfLoadPastEnd => "xf load past the end",
            Reason::PositionAbsent => "position absent",
            Reason::UnknownFormat => "unknown format",
            Reason::FeedTooLong => "a feed longer than the room",
            Reason::PatchLength => "a patch of another length",
            Reason::PatchOfMaskRegister => "a patch of register fe",
            Reason::PatchMaskTooWide => "a mask too wide",
            Reason::PatchNumberOutsideMask => "a number outside its mask",
            Reason::OutputShort => "the output is too short",
            Reason::UnknownOffset => "unknown offset",
            Reason::UnwritableCommand => "a command that is not to be written",
            Reason::NotOfLayout => "no attribute of the layout",
            Reason::WrongCount => "a wrong count",
            Reason::NumberTooWide => "a number too wide for its register",
            Reason::FileShort => "the file is too short",
            Reason::FileLong => "the file is too long",
        };
        write!(f, "{words}")
    }
}

impl Error for Reason {}
