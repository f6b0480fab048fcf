// What the test programs read their lines by: hex digits, bytes in hex, numbers in decimal digits.
#![tactic(auto)]

ghost use Rattle.std.specs.Prelude.{◌≡◌, ◌≤◌, length};
ghost use Rattle.vector_text.specs.Text.{nibble_of, hex_byte_of, number_at_of};

// A number in decimal digits, and the place behind them.
// kept: not the `Got` of leb128, so that this library stands on none
#[derive(Clone, Copy, Debug, PartialEq, Eq)]
pub struct Decimal {
    pub value: u64,
    pub next: usize,
}

// A byte's worth as a hex digit, of which the letters are small.
pub fn nibble(b: u8) -> Option<u8>
    ensures { result ≡ nibble_of b }
{
    match b {
        b'0'..=b'9' => Some(b - b'0'),
        b'a'..=b'f' => Some(b - b'a' + 10),
        _ => None,
    }
}

// The byte that two hex digits make; none where there are not two.
pub fn hex_byte(digits: &[u8]) -> Option<u8>
    ensures { result ≡ hex_byte_of digits.now }
{
    match digits {
        [high, low] => Some(16 * nibble(*high)? + nibble(*low)?),
        _ => None,
    }
}

// The decimal digits at a place; of more than eighteen the last eighteen count.
pub fn number_at(text: &[u8], at: usize) -> Decimal
    ensures told { result ≡ number_at_of text.now at }
    ensures inside { result.next ≤ length text.now }
{
    let start = at.min(text.len());
    let mut value: u64 = 0;
    for (i, b) in text[start..].iter().enumerate() {
        if *b < b'0' || b'9' < *b {
            return Decimal {
                value,
                next: start + i,
            };
        }
        value = value % 100_000_000_000_000_000 * 10 + u64::from(*b - b'0');
    }
    Decimal {
        value,
        next: text.len(),
    }
}
