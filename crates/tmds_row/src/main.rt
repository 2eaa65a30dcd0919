// All of standard input as one row from discrepancy 0, in pieces of at most 4,096 bytes: each symbol as three hexadecimal digits and a line feed.
#![tactic(auto)]

use std::io;
use std::io::{Print, Read};

// The lines of one piece, in one write, and the discrepancy to go on from.
fn write_lines(
    rt: &impl Print,
    discrepancy: i32,
    bytes: &[u8],
    symbols: &mut [u16],
    text: &mut [u8],
) -> io::Result<Option<i32>> {
    let Ok(next) = row_text::encode_row_text(discrepancy, bytes, symbols, text) else {
        return Ok(None);
    };
    rt.write_all(text)?;
    Ok(Some(next))
}

// Reads once, and writes the lines of what came: none at the end. A short read is only a smaller piece, since the discrepancy goes on.
fn piece(input: &mut impl Read, rt: &impl Print, discrepancy: i32) -> io::Result<Option<i32>> {
    let mut bytes = [0u8; 4096];
    let n = input.read(&mut bytes)?;
    if n == 0 {
        return Ok(None);
    }
    // Rooms of a fixed size, each lent as far as it is used: there is no heap.
    let mut symbols = [0u16; 4096];
    let mut text = [0u8; 16384];
    write_lines(
        rt,
        discrepancy,
        &bytes[..n],
        &mut symbols[..n],
        &mut text[..4 * n],
    )
}

// Each turn takes at least one byte, so the count is never reached.
fn all(input: &mut impl Read, rt: &impl Print) -> io::Result<()> {
    let mut discrepancy = 0;
    for _ in 0..u64::MAX {
        let Some(next) = piece(input, rt, discrepancy)? else {
            break;
        };
        discrepancy = next;
    }
    Ok(())
}

fn main(rt: HostRuntime) -> io::Result<()> {
    all(&mut rt.stdin(), &rt)
}
