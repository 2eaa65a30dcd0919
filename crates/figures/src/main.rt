// The worked figures that are run: each printed with its name, and held to the file stdout.
#![tactic(auto)]

use refusal::{Refusal, Refused};
use std::io;
use std::io::Print;
use symbol::{Encoded, TmdsPair, TmdsSymbol};
use timing::{DviTiming, VGA_TIMING};

// A number of so many hexadecimal digits; where there is none, the refusal's number.
fn show(
    rt: &impl Print,
    name: &str,
    digits: usize,
    answer: Result<u32, Refusal>,
) -> io::Result<()> {
    match answer {
        Ok(n) => println!(rt; "{name}: {n:0digits$x}"),
        Err(refusal) => println!(rt; "{name}: {}", refusal.number()),
    }
}

fn show_byte(rt: &impl Print, name: &str, b: u8) -> io::Result<()> {
    println!(rt; "{name}: {b:02x}")
}

// A refusal's number, and 0 for none.
fn show_verdict(rt: &impl Print, name: &str, verdict: Result<(), Refusal>) -> io::Result<()> {
    println!(rt; "{name}: {}", refusal::verdict_number(verdict))
}

// Whether the frame count goes on to `want`; the refusal where there is one.
fn show_count(
    rt: &impl Print,
    name: &str,
    answer: Result<i32, Refused<i32>>,
    want: i32,
) -> io::Result<()> {
    match answer {
        Ok(count) => println!(rt; "{name}: {}", if count == want { "yes" } else { "no" }),
        Err(e) => show_verdict(rt, name, Err(e.refusal)),
    }
}

fn symbol_sent(answer: Result<Encoded<TmdsSymbol>, Refused<i32>>) -> Result<u32, Refusal> {
    Ok(u32::from(answer?.sent.0))
}

fn byte_read(symbol: u16) -> Result<u32, Refusal> {
    Ok(u32::from(TmdsSymbol(symbol).read()?))
}

fn symbols(rt: &impl Print) -> io::Result<()> {
    let pair = TmdsPair::encode_balanced_approx(0);
    show(rt, "balanced pair of 00", 5, pair.map(|p| p.raw()))?;
    for (name, discrepancy) in [
        ("00 at discrepancy 5, refused with", 5),
        ("00 at discrepancy 4", 4),
        ("00 at discrepancy -4", -4),
        ("00 at discrepancy -5, refused with", -5),
    ] {
        show(rt, name, 3, symbol_sent(TmdsSymbol::encode(discrepancy, 0)))?;
    }
    for (name, symbol) in [
        ("3ff read", 0x3ff),
        ("0f0 read, refused with", 0x0f0),
        ("400 read, refused with", 0x400),
    ] {
        show(rt, name, 2, byte_read(symbol))?;
    }
    Ok(())
}

fn audio_figures(rt: &impl Print) -> io::Result<()> {
    let mut packet = [0xaau8; 36];
    let samples = [1i16, -1];
    show_count(
        rt,
        "audio (1, -1) from count 0 goes on to 191",
        audio::set_audio(&mut packet, &samples, 0),
        191,
    )?;
    show_byte(rt, "its header byte 0", packet[0])?;
    show_byte(rt, "its header byte 1", packet[1])?;
    show_byte(rt, "its header byte 2", packet[2])?;
    show_byte(rt, "its status byte", packet[10])?;
    show_byte(rt, "a byte of its second subpacket", packet[13])?;
    show_count(
        rt,
        "no frames from count 0 stay at 0",
        audio::set_audio(&mut packet, &[], 0),
        0,
    )?;
    show_count(
        rt,
        "audio from count 192, refused with",
        audio::set_audio(&mut packet, &samples, 192),
        0,
    )
}

fn packet_figures(rt: &impl Print) -> io::Result<()> {
    let mut packet = [0xaau8; 36];
    show_verdict(
        rt,
        "CTS 1048575",
        clock::set_audio_clock_regeneration(&mut packet, 1048575, 6144),
    )?;
    show_byte(rt, "the clock packet's header parity", packet[3])?;
    show_verdict(
        rt,
        "CTS 1048576, refused with",
        clock::set_audio_clock_regeneration(&mut packet, 1048576, 6144),
    )?;
    show_verdict(
        rt,
        "audio info at 48000",
        packet::set_audio_info_frame(&mut packet, 48000),
    )?;
    show_byte(rt, "its checksum", packet[4])?;
    show_verdict(
        rt,
        "AVI with R 8, M 1, code 1",
        packet::set_avi_info_frame(&mut packet, 0, 0, 0, 1, 8, 0, 1),
    )?;
    show_byte(rt, "its checksum", packet[4])?;
    show_verdict(
        rt,
        "AVI with R 7, refused with",
        packet::set_avi_info_frame(&mut packet, 0, 0, 0, 1, 7, 0, 1),
    )
}

fn front_porch(h_front_porch: u32) -> DviTiming {
    DviTiming {
        h_front_porch,
        ..VGA_TIMING
    }
}

fn show_words(rt: &impl Print, words: &[u32]) -> io::Result<()> {
    for word in words {
        println!(rt; "{word:08x}")?;
    }
    Ok(())
}

fn line_figures(rt: &impl Print) -> io::Result<()> {
    let mut words = [0u32; 56];
    show_verdict(
        rt,
        "front porch 8, refused with",
        line::init_data_island(front_porch(8), &mut words),
    )?;
    show_verdict(
        rt,
        "front porch 9",
        line::init_data_island(front_porch(9), &mut words),
    )?;
    show_verdict(
        rt,
        "VGA's command words",
        line::init_data_island(VGA_TIMING, &mut words),
    )?;
    show_verdict(
        rt,
        "VGA's front porch, no packet",
        line::encode_data_island_empty(VGA_TIMING, &mut words, 0),
    )?;
    show_words(rt, &words)?;
    show_verdict(
        rt,
        "VGA's active line, its last ten words",
        line::encode_data_island_empty(VGA_TIMING, &mut words, 3),
    )?;
    show_words(rt, &words[46..])
}

fn main(rt: HostRuntime) -> io::Result<()> {
    symbols(&rt)?;
    audio_figures(&rt)?;
    packet_figures(&rt)?;
    line_figures(&rt)
}
