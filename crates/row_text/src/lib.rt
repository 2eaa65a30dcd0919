// A row's symbols as lines of text: three lower-case hexadecimal digits and a line feed each.
#![tactic(auto)]

ghost use Rattle.std.specs.Prelude.{◌≡◌, ◌*◌, ◌%◌, length};
ghost use Rattle.row_text.specs.Answer.{text_fits, text_row_of, text_row_symbols, text_row_text};
ghost use Rattle.row_text.specs.Text.{digit_of, line_of, text_of};

use refusal::{Refusal, Refused};

static DIGITS: [u8; 16] = *b"0123456789abcdef";

fn digit(n: u16) -> u8
    ensures { result ≡ digit_of (n % 16) }
{
    DIGITS[(n % 16) as usize]
}

fn line(symbol: u16) -> [u8; 4]
    ensures { result ≡ line_of symbol }
{
    [
        digit(symbol / 256),
        digit(symbol / 16),
        digit(symbol),
        b'\n',
    ]
}

// Not by `copy_from_slice`, which asks at each line whether the two overlap: the program takes a quarter more instructions then.
fn put_lines(symbols: &[u16], out: &mut [u8])
    requires { length out.old ≡ 4 * length symbols.now }
    ensures { out.new ≡ text_of symbols.now }
{
    for (i, symbol) in symbols.iter().enumerate() {
        let [high, middle, low, end] = line(*symbol);
        let at = 4 * i;
        out[at] = high;
        out[at + 1] = middle;
        out[at + 2] = low;
        out[at + 3] = end;
    }
}

// Four characters of text for each byte of a piece.
fn text_fits(row: usize, text: usize) -> bool
    ensures { result ≡ text_fits row text }
{
    row <= 4096 && text == 4 * row
}

// A piece of a row as text: its symbols, and a line of text for each.
pub fn encode_row_text(
    discrepancy: i32,
    bytes: &[u8],
    symbols: &mut [u16],
    text: &mut [u8],
) -> Result<i32, Refused<i32>>
    ensures answer { result ≡ text_row_of discrepancy bytes.now (length symbols.old) (length text.old) }
    ensures symbols { symbols.new ≡ text_row_symbols discrepancy bytes.now symbols.old (length text.old) }
    ensures text { text.new ≡ text_row_text discrepancy bytes.now (length symbols.old) text.old }
{
    if !text_fits(bytes.len(), text.len()) {
        return Err(Refusal::Length.handing_back(discrepancy));
    }
    let end = row::encode_row(discrepancy, bytes, symbols)?;
    put_lines(symbols, text);
    Ok(end)
}
