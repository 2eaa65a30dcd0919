// The fields of the AVI info frame (CEA-861-D, section 6.4): an enum for each, its numbers, and the decision from a number.
#![tactic(auto)]

ghost use Rattle.std.specs.Prelude.{◌≡◌, ◌≤◌};
ghost use Rattle.hdmi.specs.Info.{active_present};
ghost use Rattle.fields.specs.ScanInfo.{scan_number, scan_decided};
ghost use Rattle.fields.specs.PixelFormat.{pixel_number, pixel_decided};
ghost use Rattle.fields.specs.Colorimetry.{color_number, color_decided};
ghost use Rattle.fields.specs.PictureAspectRatio.{picture_number, picture_decided};
ghost use Rattle.fields.specs.ActiveFormatAspectRatio.{active_number, active_decided};
ghost use Rattle.fields.specs.QuantizationRange.{quantization_number, quantization_decided};
ghost use Rattle.fields.specs.VideoCode.{code_number, code_decided};

use refusal::Refusal;

// Each variant is its number, and a number that is none of them is refused with 4. Each enum decides by a `match` of its own: one decision for all, in
// a trait, would list the variants a second time too, in a constant to be searched, and `as u8` isn't to be had of a type parameter.

// S: how the picture is scanned.
#[derive(Clone, Copy, Debug, PartialEq, Eq, Hash)]
pub enum ScanInfo {
    NoData = 0,
    Overscan = 1,
    Underscan = 2,
}

impl ScanInfo {
    pub fn number(self) -> u8
        ensures { (result ≡ scan_number self) × (result ≤ 2) }
    {
        self as u8
    }
}

impl TryFrom<u32> for ScanInfo {
    type Error = Refusal;

    ghost try_from_gives = { scan_decided };

    fn try_from(n: u32) -> Result<Self, Refusal> {
        match n {
            0 => Ok(ScanInfo::NoData),
            1 => Ok(ScanInfo::Overscan),
            2 => Ok(ScanInfo::Underscan),
            _ => Err(Refusal::Unlisted),
        }
    }
}

// Y: how a pixel is coded.
#[derive(Clone, Copy, Debug, PartialEq, Eq, Hash)]
pub enum PixelFormat {
    Rgb = 0,
    Ycbcr422 = 1,
    Ycbcr444 = 2,
}

impl PixelFormat {
    pub fn number(self) -> u8
        ensures { (result ≡ pixel_number self) × (result ≤ 2) }
    {
        self as u8
    }
}

impl TryFrom<u32> for PixelFormat {
    type Error = Refusal;

    ghost try_from_gives = { pixel_decided };

    fn try_from(n: u32) -> Result<Self, Refusal> {
        match n {
            0 => Ok(PixelFormat::Rgb),
            1 => Ok(PixelFormat::Ycbcr422),
            2 => Ok(PixelFormat::Ycbcr444),
            _ => Err(Refusal::Unlisted),
        }
    }
}

// C: the colour space.
#[derive(Clone, Copy, Debug, PartialEq, Eq, Hash)]
pub enum Colorimetry {
    NoData = 0,
    Itu601 = 1,
    Itu709 = 2,
    Extended = 3,
}

impl Colorimetry {
    pub fn number(self) -> u8
        ensures { (result ≡ color_number self) × (result ≤ 3) }
    {
        self as u8
    }
}

impl TryFrom<u32> for Colorimetry {
    type Error = Refusal;

    ghost try_from_gives = { color_decided };

    fn try_from(n: u32) -> Result<Self, Refusal> {
        match n {
            0 => Ok(Colorimetry::NoData),
            1 => Ok(Colorimetry::Itu601),
            2 => Ok(Colorimetry::Itu709),
            3 => Ok(Colorimetry::Extended),
            _ => Err(Refusal::Unlisted),
        }
    }
}

// M: the aspect ratio of the whole picture.
#[derive(Clone, Copy, Debug, PartialEq, Eq, Hash)]
pub enum PictureAspectRatio {
    NoData = 0,
    Ratio4_3 = 1,
    Ratio16_9 = 2,
}

impl PictureAspectRatio {
    pub fn number(self) -> u8
        ensures { (result ≡ picture_number self) × (result ≤ 2) }
    {
        self as u8
    }
}

impl TryFrom<u32> for PictureAspectRatio {
    type Error = Refusal;

    ghost try_from_gives = { picture_decided };

    fn try_from(n: u32) -> Result<Self, Refusal> {
        match n {
            0 => Ok(PictureAspectRatio::NoData),
            1 => Ok(PictureAspectRatio::Ratio4_3),
            2 => Ok(PictureAspectRatio::Ratio16_9),
            _ => Err(Refusal::Unlisted),
        }
    }
}

// R: the aspect ratio of the part that shows something. `NoData` is 0: the 255 of data_island.rs would run over M and C.
#[derive(Clone, Copy, Debug, PartialEq, Eq, Hash)]
pub enum ActiveFormatAspectRatio {
    NoData = 0,
    SameAsPar = 8,
    Ratio4_3 = 9,
    Ratio16_9 = 10,
    Ratio14_9 = 11,
}

impl ActiveFormatAspectRatio {
    pub fn number(self) -> u8
        ensures { (result ≡ active_number self) × (result ≤ 11) }
    {
        self as u8
    }

    // A: 1 where there is something to say. A bit of the frame, so a number.
    pub fn present(self) -> u8
        ensures { (result ≡ active_present (active_number self)) × (result ≤ 1) }
    {
        u8::from(self != ActiveFormatAspectRatio::NoData)
    }
}

impl TryFrom<u32> for ActiveFormatAspectRatio {
    type Error = Refusal;

    ghost try_from_gives = { active_decided };

    fn try_from(n: u32) -> Result<Self, Refusal> {
        match n {
            0 => Ok(ActiveFormatAspectRatio::NoData),
            8 => Ok(ActiveFormatAspectRatio::SameAsPar),
            9 => Ok(ActiveFormatAspectRatio::Ratio4_3),
            10 => Ok(ActiveFormatAspectRatio::Ratio16_9),
            11 => Ok(ActiveFormatAspectRatio::Ratio14_9),
            _ => Err(Refusal::Unlisted),
        }
    }
}

// Q: the range of the levels.
#[derive(Clone, Copy, Debug, PartialEq, Eq, Hash)]
pub enum QuantizationRange {
    Default = 0,
    Limited = 1,
    Full = 2,
}

impl QuantizationRange {
    pub fn number(self) -> u8
        ensures { (result ≡ quantization_number self) × (result ≤ 2) }
    {
        self as u8
    }
}

impl TryFrom<u32> for QuantizationRange {
    type Error = Refusal;

    ghost try_from_gives = { quantization_decided };

    fn try_from(n: u32) -> Result<Self, Refusal> {
        match n {
            0 => Ok(QuantizationRange::Default),
            1 => Ok(QuantizationRange::Limited),
            2 => Ok(QuantizationRange::Full),
            _ => Err(Refusal::Unlisted),
        }
    }
}

// The video code: size and rate.
#[derive(Clone, Copy, Debug, PartialEq, Eq, Hash)]
pub enum VideoCode {
    Code640x480P60 = 1,
    Code720x480P60 = 2,
}

impl VideoCode {
    pub fn number(self) -> u8
        ensures { (result ≡ code_number self) × (result ≤ 2) }
    {
        self as u8
    }
}

impl TryFrom<u32> for VideoCode {
    type Error = Refusal;

    ghost try_from_gives = { code_decided };

    fn try_from(n: u32) -> Result<Self, Refusal> {
        match n {
            1 => Ok(VideoCode::Code640x480P60),
            2 => Ok(VideoCode::Code720x480P60),
            _ => Err(Refusal::Unlisted),
        }
    }
}
