// Where in the raster a packet stands (RFC 8331, section 2.1, Line_Number and Horizontal_Offset): 01's place.
ghost use Rattle.std.specs.Prelude.{◌≡◌};
ghost use Rattle.anc_record.specs.Location.{line_of, line_number, offset_of, offset_number};

// A line, or the region that stands for one.
#[derive(Clone, Copy)]
pub enum Line {
    Number(u16),
    // Without specific line.
    Unspecified,
    // Any line from the second after the switching line to the last before active video.
    Vertical,
    // A line whose number does not fit 11 bits.
    TooLarge,
}

impl Line {
    pub const UNSPECIFIED: u16 = 0x7FF;

    pub const VERTICAL: u16 = 0x7FE;

    pub const TOO_LARGE: u16 = 0x7FD;

    pub fn of(x: u16) -> Line
        ensures { result ≡ line_of x }
    {
        if x == Line::UNSPECIFIED {
            return Line::Unspecified;
        }
        if x == Line::VERTICAL {
            return Line::Vertical;
        }
        if x == Line::TOO_LARGE {
            return Line::TooLarge;
        }
        Line::Number(x)
    }

    pub fn number(self) -> u16
        ensures { result ≡ line_number self }
    {
        match self {
            Line::Number(x) => x,
            Line::Unspecified => Line::UNSPECIFIED,
            Line::Vertical => Line::VERTICAL,
            Line::TooLarge => Line::TOO_LARGE,
        }
    }
}

// An offset from the start of active video (SAV), or the region that stands for one.
#[derive(Clone, Copy)]
pub enum Offset {
    Number(u16),
    // Without specific horizontal location.
    Unspecified,
    // Within horizontal ancillary data space.
    Horizontal,
    // Between SAV and EAV.
    SavToEav,
    // An offset that does not fit 12 bits.
    TooLarge,
}

impl Offset {
    pub const UNSPECIFIED: u16 = 0xFFF;

    pub const HORIZONTAL: u16 = 0xFFE;

    pub const SAV_TO_EAV: u16 = 0xFFD;

    pub const TOO_LARGE: u16 = 0xFFC;

    pub fn of(x: u16) -> Offset
        ensures { result ≡ offset_of x }
    {
        if x == Offset::UNSPECIFIED {
            return Offset::Unspecified;
        }
        if x == Offset::HORIZONTAL {
            return Offset::Horizontal;
        }
        if x == Offset::SAV_TO_EAV {
            return Offset::SavToEav;
        }
        if x == Offset::TOO_LARGE {
            return Offset::TooLarge;
        }
        Offset::Number(x)
    }

    pub fn number(self) -> u16
        ensures { result ≡ offset_number self }
    {
        match self {
            Offset::Number(x) => x,
            Offset::Unspecified => Offset::UNSPECIFIED,
            Offset::Horizontal => Offset::HORIZONTAL,
            Offset::SavToEav => Offset::SAV_TO_EAV,
            Offset::TooLarge => Offset::TOO_LARGE,
        }
    }
}

#[derive(Clone, Copy)]
pub struct Location {
    pub line: Line,
    pub offset: Offset,
}
