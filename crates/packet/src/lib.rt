// The packet builders of data_island.rs for the info frames. Each fixes all 36 bytes, whatever the packet held.
#![tactic(auto)]

ghost use Rattle.std.specs.Prelude.{◌≡◌, ◌≤◌, take, get_or};
ghost use Rattle.refusal.specs.Verdict.{verdict, kept};
ghost use Rattle.hdmi.specs.Parity.{parity};
ghost use Rattle.hdmi.specs.Info.{frequency_code, active_present, audio_info_frame, avi_info_frame, info_frame};
ghost use Rattle.fields.specs.ScanInfo.{scan_number};
ghost use Rattle.fields.specs.PixelFormat.{pixel_number};
ghost use Rattle.fields.specs.Colorimetry.{color_number};
ghost use Rattle.fields.specs.PictureAspectRatio.{picture_number};
ghost use Rattle.fields.specs.ActiveFormatAspectRatio.{active_number};
ghost use Rattle.fields.specs.QuantizationRange.{quantization_number};
ghost use Rattle.fields.specs.VideoCode.{code_number};
ghost use Rattle.blocks.specs.Asks.{packet_asks};
ghost use Rattle.packet.specs.Asks.{avi_asks};
ghost use Rattle.packet.specs.AviFields.{avi_decided, frame_of};

use fields::{
    ActiveFormatAspectRatio, Colorimetry, PictureAspectRatio, PixelFormat, QuantizationRange,
    ScanInfo, VideoCode,
};
use refusal::Refusal;

// Audio info: two channels of 16 bits, at this rate.
#[tactic(auto, using(hdmi::proofs::Figures::header_84_1_10, crate::proofs::Infos::padded))]
pub fn set_audio_info_frame(packet: &mut [u8], rate: u32) -> Result<(), Refusal>
    ensures { (result ≡ verdict (packet_asks packet.old)) × (packet.new ≡ kept (verdict (packet_asks packet.old)) (audio_info_frame rate) packet.old) }
{
    let b2 = 1 + 4 * frequency_code(rate);
    write_info_frame(packet, [0x84, 1, 10, 0x4a], [0x11, b2, 0, 0])
}

// 0 says that the stream itself tells its rate.
fn frequency_code(rate: u32) -> u8
    ensures { (result ≡ frequency_code rate) × (result ≤ 3) }
{
    match rate {
        48000 => 3,
        44100 => 2,
        _ => 0,
    }
}

// AVI info from numbers, each a parameter, as `chaffrail_set_avi_info_frame` takes them. The length is asked first, as the table orders the refusals.
pub fn set_avi_info_frame(
    packet: &mut [u8],
    s: u32,
    y: u32,
    c: u32,
    m: u32,
    r: u32,
    q: u32,
    v: u32,
) -> Result<(), Refusal>
    ensures { (result ≡ verdict (avi_asks packet.old s y c m r q v)) × (packet.new ≡ kept (verdict (avi_asks packet.old s y c m r q v)) (avi_info_frame s y c m r q v) packet.old) }
{
    if packet.len() != 36 {
        return Err(Refusal::Length);
    }
    // Of the fields it is only asked whether there are such; the frame is made of the numbers that came, which saves taking them from the fields again.
    let _ = AviFields::from_numbers(s, y, c, m, r, q, v)?;
    let present = u8::from(r != 0);
    write_avi(
        packet, s as u8, y as u8, c as u8, m as u8, r as u8, present, q as u8, v as u8,
    )
}

// AVI info from fields, each a parameter, as in data_island.rs.
pub fn set_avi_fields(
    packet: &mut [u8],
    s: ScanInfo,
    y: PixelFormat,
    c: Colorimetry,
    m: PictureAspectRatio,
    r: ActiveFormatAspectRatio,
    q: QuantizationRange,
    v: VideoCode,
) -> Result<(), Refusal>
    ensures { (result ≡ verdict (packet_asks packet.old)) × (packet.new ≡ kept (verdict (packet_asks packet.old)) (avi_info_frame (scan_number s) (pixel_number y) (color_number c) (picture_number m) (active_number r) (quantization_number q) (code_number v)) packet.old) }
{
    let fields = AviFields {
        scan: s,
        pixel_format: y,
        colorimetry: c,
        picture_aspect: m,
        active_aspect: r,
        quantization: q,
        video_code: v,
    };
    fields.write(packet)
}

// The fields of the AVI info frame together.
#[derive(Clone, Copy)]
struct AviFields {
    scan: ScanInfo,
    pixel_format: PixelFormat,
    colorimetry: Colorimetry,
    picture_aspect: PictureAspectRatio,
    active_aspect: ActiveFormatAspectRatio,
    quantization: QuantizationRange,
    video_code: VideoCode,
}

impl AviFields {
    // Refused with 4 where a number isn't one of its field's.
    fn from_numbers(
        s: u32,
        y: u32,
        c: u32,
        m: u32,
        r: u32,
        q: u32,
        v: u32,
    ) -> Result<AviFields, Refusal>
        ensures { avi_decided s y c m r q v result }
    {
        Ok(AviFields {
            scan: ScanInfo::try_from(s)?,
            pixel_format: PixelFormat::try_from(y)?,
            colorimetry: Colorimetry::try_from(c)?,
            picture_aspect: PictureAspectRatio::try_from(m)?,
            active_aspect: ActiveFormatAspectRatio::try_from(r)?,
            quantization: QuantizationRange::try_from(q)?,
            video_code: VideoCode::try_from(v)?,
        })
    }

    fn write(self, packet: &mut [u8]) -> Result<(), Refusal>
        ensures { (result ≡ verdict (packet_asks packet.old)) × (packet.new ≡ kept (verdict (packet_asks packet.old)) (frame_of self) packet.old) }
    {
        write_avi(
            packet,
            self.scan.number(),
            self.pixel_format.number(),
            self.colorimetry.number(),
            self.picture_aspect.number(),
            self.active_aspect.number(),
            self.active_aspect.present(),
            self.quantization.number(),
            self.video_code.number(),
        )
    }
}

// The AVI info frame of numbers that are its fields', and whether r says anything.
#[tactic(auto, using(hdmi::proofs::Figures::header_82_2_13))]
fn write_avi(
    packet: &mut [u8],
    s: u8,
    y: u8,
    c: u8,
    m: u8,
    r: u8,
    present: u8,
    q: u8,
    v: u8,
) -> Result<(), Refusal>
    requires bounds { (s ≤ 2) × (y ≤ 2) × (c ≤ 3) × (m ≤ 2) × (r ≤ 11) × (q ≤ 2) × (v ≤ 2) }
    requires flag { present ≡ active_present r }
    ensures { (result ≡ verdict (packet_asks packet.old)) × (packet.new ≡ kept (verdict (packet_asks packet.old)) (avi_info_frame s y c m r q v) packet.old) }
{
    let b1 = s + 16 * present + 32 * y;
    let b2 = r + 16 * m + 64 * c;
    write_info_frame(packet, [0x82, 2, 13, 0xe4], [b1, b2, 4 * q, v])
}

// An info frame with this header (type, version, length and their parity byte) and these data bytes, 1 to 4. The others are 0. Inlined, so that the
// header's part of the sum is reckoned when it is compiled.
#[inline(always)]
fn write_info_frame(packet: &mut [u8], header: [u8; 4], bytes: [u8; 4]) -> Result<(), Refusal>
    requires { parity (take 3 header) ≡ get_or header 3 0 }
    ensures { (result ≡ verdict (packet_asks packet.old)) × (packet.new ≡ kept (verdict (packet_asks packet.old)) (info_frame (take 3 header) bytes) packet.old) }
{
    let [kind, version, size, _] = header;
    let [a, b, c, d] = bytes;
    let sum = kind as u32
        + version as u32
        + size as u32
        + a as u32
        + b as u32
        + c as u32
        + d as u32;
    let check = ((256 - sum % 256) % 256) as u8;
    let block = parity::subpacket_word([check, a, b, c, d, 0, 0]);
    blocks::join_words(packet, header, [block, 0, 0, 0])
}
