// Numbers in the bytes of a case, the highest byte first, and answers beside them.
use refusal::Refusal;

// A byte as a signed number.
pub fn signed(b: u8) -> i32 {
    i32::from(b.cast_signed())
}

// Whether the words are written without refusal, and are then those of the bytes.
pub fn written<const N: usize, F: FnOnce(&mut [u32]) -> Result<(), Refusal>>(
    mut words: [u32; N],
    known: &[u8],
    write: F,
) -> bool
    requires { F.IsAlwaysCallable write }
{
    write(&mut words).is_ok()
        && words
            .iter()
            .flat_map(|w| w.to_be_bytes())
            .eq(known.iter().copied())
}
