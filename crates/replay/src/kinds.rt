// The kinds of case, by the names that the list has for them.
use crate::{lines, packets, symbols};

#[derive(Clone, Copy, Debug, PartialEq, Eq)]
pub enum Kind {
    Symbol,
    Control,
    Joined,
    Pair,
    Balanced,
    Approx,
    Row,
    Parity,
    Terc4,
    Audio,
    Clock,
    AudioInfo,
    Avi,
    Island,
    Vga,
    Sync,
    Pulse,
    Only,
    Init,
    IslandLine,
    EmptyLine,
    Advance,
    State,
    Scanline,
}

// Each kind at its own number, which is its place here.
pub const KINDS: [Kind; 24] = [
    Kind::Symbol,
    Kind::Control,
    Kind::Joined,
    Kind::Pair,
    Kind::Balanced,
    Kind::Approx,
    Kind::Row,
    Kind::Parity,
    Kind::Terc4,
    Kind::Audio,
    Kind::Clock,
    Kind::AudioInfo,
    Kind::Avi,
    Kind::Island,
    Kind::Vga,
    Kind::Sync,
    Kind::Pulse,
    Kind::Only,
    Kind::Init,
    Kind::IslandLine,
    Kind::EmptyLine,
    Kind::Advance,
    Kind::State,
    Kind::Scanline,
];

impl Kind {
    pub fn name(self) -> &'static str {
        match self {
            Kind::Symbol => "symbol",
            Kind::Control => "control",
            Kind::Joined => "joined",
            Kind::Pair => "pair",
            Kind::Balanced => "balanced",
            Kind::Approx => "approx",
            Kind::Row => "row",
            Kind::Parity => "parity",
            Kind::Terc4 => "terc4",
            Kind::Audio => "audio",
            Kind::Clock => "clock",
            Kind::AudioInfo => "audio_info",
            Kind::Avi => "avi",
            Kind::Island => "island",
            Kind::Vga => "vga",
            Kind::Sync => "sync",
            Kind::Pulse => "pulse",
            Kind::Only => "only",
            Kind::Init => "init",
            Kind::IslandLine => "island_line",
            Kind::EmptyLine => "empty_line",
            Kind::Advance => "advance",
            Kind::State => "state",
            Kind::Scanline => "scanline",
        }
    }

    pub fn named(name: &[u8]) -> Option<Kind> {
        for kind in KINDS {
            if kind.name().as_bytes() == name {
                return Some(kind);
            }
        }
        None
    }

    // Whether ours answers what stands in a case of this kind.
    pub fn agrees(self, case: &[u8]) -> bool {
        match self {
            Kind::Symbol => symbols::symbol(case),
            Kind::Control => symbols::control(case),
            Kind::Joined => symbols::joined(case),
            Kind::Pair => symbols::pair(case),
            Kind::Balanced => symbols::balanced(case),
            Kind::Approx => symbols::approx(case),
            Kind::Row => symbols::row(case),
            Kind::Parity => packets::parity(case),
            Kind::Terc4 => packets::terc4(case),
            Kind::Audio => packets::audio(case),
            Kind::Clock => packets::clock(case),
            Kind::AudioInfo => packets::audio_info(case),
            Kind::Avi => packets::avi(case),
            Kind::Island => packets::island(case),
            Kind::Vga => lines::vga(case),
            Kind::Sync => lines::sync(case),
            Kind::Pulse => lines::pulse(case),
            Kind::Only => lines::only(case),
            Kind::Init => lines::init(case),
            Kind::IslandLine => lines::island_line(case),
            Kind::EmptyLine => lines::empty_line(case),
            Kind::Advance => lines::advance(case),
            Kind::State => lines::state(case),
            Kind::Scanline => lines::scanline(case),
        }
    }
}
