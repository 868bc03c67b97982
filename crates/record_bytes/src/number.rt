ghost use Rattle.std.specs.Prelude.{◌≡◌, ℕ, length, if◌then◌else◌, ◌==◌, Some, None, option_map};
ghost use Rattle.record_bytes.specs.Numbers.{value as value_of};

// A number that stands in so many bytes, high byte first, and fits 32 bits. The impls below are alike as impls of a trait
// are: each names its own array and its own `from_be_bytes`, which no trait has in common.
pub trait Number: Copy + Into<u32> {
    const SIZE: usize;

    ghost SIZE: { ℕ };

    ghost value: { Self → ℕ };

    // The number that bytes stand for; None where they are not as many as its size.
    fn from_bytes(bytes: &[u8]) -> Option<Self>
        ensures { option_map value result ≡ (if length bytes.now == SIZE then Some (value_of bytes.now) else None) };

    ghost fits_word: { (n : Self) (word : ℕ) → Self.converts n word → word ≡ value n };
}

impl Number for u8 {
    const SIZE: usize = 1;

    ghost SIZE = { 1 };

    ghost value = { λ n. n };

    ghost fits_word = { λ n word is. is };

    fn from_bytes(bytes: &[u8]) -> Option<u8> {
        let [byte] = bytes else {
            return None;
        };
        Some(*byte)
    }
}

impl Number for u16 {
    const SIZE: usize = 2;

    ghost SIZE = { 2 };

    ghost value = { λ n. n };

    ghost fits_word = { λ n word is. is };

    fn from_bytes(bytes: &[u8]) -> Option<u16> {
        let bytes = <[u8; 2]>::try_from(bytes).ok()?;
        Some(u16::from_be_bytes(bytes))
    }
}

impl Number for u32 {
    const SIZE: usize = 4;

    ghost SIZE = { 4 };

    ghost value = { λ n. n };

    ghost fits_word = { λ n word is. is };

    fn from_bytes(bytes: &[u8]) -> Option<u32> {
        let bytes = <[u8; 4]>::try_from(bytes).ok()?;
        Some(u32::from_be_bytes(bytes))
    }
}
