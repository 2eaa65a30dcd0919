// Cases of tmds.rs: whether ours answers what stands in the case. A case of another length agrees with nothing.
use crate::numbers::signed;
use symbol::{Encoded, TmdsPair, TmdsSymbol};

pub fn symbol(c: &[u8]) -> bool {
    let [discrepancy, byte, high, low, next] = *c else {
        return false;
    };
    let known = Encoded {
        sent: TmdsSymbol(u16::from_be_bytes([high, low])),
        discrepancy: signed(next),
    };
    TmdsSymbol::encode(signed(discrepancy), byte) == Ok(known)
}

pub fn control(c: &[u8]) -> bool {
    let [c0, c1, high, low] = *c else {
        return false;
    };
    TmdsSymbol::control(c0 == 1, c1 == 1) == TmdsSymbol(u16::from_be_bytes([high, low]))
}

pub fn joined(c: &[u8]) -> bool {
    let Some(([f1, f0, s1, s0], pair)) = c.split_last_chunk::<4>() else {
        return false;
    };
    let first = TmdsSymbol(u16::from_be_bytes([*f1, *f0]));
    let second = TmdsSymbol(u16::from_be_bytes([*s1, *s0]));
    TmdsPair::new(first, second) == Ok(TmdsPair(u32::from_be_bytes(*pair)))
}

pub fn pair(c: &[u8]) -> bool {
    let [b0, b1, w3, w2, w1, w0, end] = *c else {
        return false;
    };
    let known = Encoded {
        sent: TmdsPair(u32::from_be_bytes([w3, w2, w1, w0])),
        discrepancy: signed(end),
    };
    TmdsPair::encode_pair_discrepancy(b0, b1) == known
}

pub fn balanced(c: &[u8]) -> bool {
    let Some(([b0, b1], pair)) = c.split_last_chunk::<4>() else {
        return false;
    };
    TmdsPair::encode_pair(*b0, *b1) == Ok(TmdsPair(u32::from_be_bytes(*pair)))
}

pub fn approx(c: &[u8]) -> bool {
    let Some(([byte], pair)) = c.split_last_chunk::<4>() else {
        return false;
    };
    TmdsPair::encode_balanced_approx(*byte) == Ok(TmdsPair(u32::from_be_bytes(*pair)))
}

// A row of at most 1,024 bytes: the discrepancy, the bytes, the symbols, the discrepancy after them.
pub fn row(c: &[u8]) -> bool {
    let [start, rest @ .., end] = c else {
        return false;
    };
    let n = rest.len() / 3;
    if n > 1024 || rest.len() != 3 * n {
        return false;
    }
    let (bytes, known) = rest.split_at(n);
    let mut room = [0u16; 1024];
    let symbols = &mut room[..n];
    let ended = row::encode_row(signed(*start), bytes, symbols);
    let sent = symbols.iter().flat_map(|s| s.to_be_bytes());
    ended == Ok(signed(*end)) && sent.eq(known.iter().copied())
}
