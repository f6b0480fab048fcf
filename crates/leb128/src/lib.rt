// A telegram number: unsigned LEB128 (DWARF 4, section 7.6) in its shortest form, at most five bytes, 0 to 4,294,967,295.
#![tactic(auto)]

ghost use Rattle.std.specs.Prelude.{◌≡◌, cond, ◌||◌, ◌&&◌, ◌+◌, ◌*◌, ◌<◌, ◌≤◌, ltb, eqb, length};
ghost use Rattle.lists.specs.Lists.{laid};
ghost use Rattle.refusal.specs.Refusal.{no};
ghost use Rattle.leb128.specs.Leb128.{got, read_at, width_of, Wrote, last_number, spell};

use refusal::Refusal;

// What was read at a place, and the place behind it.
#[derive(Clone, Copy, Debug, PartialEq, Eq)]
pub struct Got<T> {
    pub value: T,
    pub next: usize,
}

const LAST_NUMBER: u64 = u32::MAX as u64;

// What a fifth byte's group counts by: 128 four times over.
const FIFTH_SCALE: u64 = 268435456;

// The number that a last byte makes, at its scale over the sum of the groups before it.
fn last(b: u64, next: usize, scale: u64, sum: u64) -> Result<Got<u32>, Refusal>
    requires { (b < 128) × (scale ≤ 268435456) × (sum < 268435456) }
    ensures { result ≡ cond (ltb last_number (sum + b * scale) || (eqb b 0 && ltb 1 scale)) (Err (no 2)) (got (sum + b * scale) next) }
{
    let value = sum + b * scale;
    if LAST_NUMBER < value || b == 0 && 1 < scale {
        return Err(Refusal::BadNumber);
    }
    let value = value as u32;
    Ok(Got { value, next })
}

// The number that stands at a place of a slice.
pub fn read(s: &[u8], at: usize) -> Result<Got<u32>, Refusal>
    ensures { result ≡ read_at s.now at }
{
    let mut scale: u64 = 1;
    let mut sum: u64 = 0;
    for i in at..s.len() {
        let b = u64::from(s[i]);
        if b < 128 {
            return last(b, i + 1, scale, sum);
        }
        if scale == FIFTH_SCALE {
            return Err(Refusal::BadNumber);
        }
        sum += (b - 128) * scale;
        scale *= 128;
    }
    Err(Refusal::EndsInField)
}

// How many bytes a number takes.
pub fn width(value: u32) -> usize
    ensures { result ≡ width_of value }
{
    if value < 128 {
        return 1;
    }
    if value < 16384 {
        return 2;
    }
    if value < 2097152 {
        return 3;
    }
    if value < 268435456 {
        return 4;
    }
    5
}

// Writes a number's bytes at a place of a buffer that holds them.
fn put(out: &mut [u8], at: usize, value: u32)
    requires { at + width_of value ≤ length out.old }
    ensures { out.new ≡ laid out.old at (spell value) }
{
    let mut n = value;
    for i in at..out.len() {
        if n < 128 {
            out[i] = n as u8;
            return;
        }
        out[i] = (128 + n % 128) as u8;
        n /= 128;
    }
}

// Writes a number at a place of a buffer; the answer is the place behind it.
pub fn write(out: &mut [u8], at: usize, value: u32) -> Result<usize, Refusal>
    ensures { Wrote out.old out.new at value result }
{
    let count = width(value);
    if out.len() < count || out.len() - count < at {
        return Err(Refusal::BufferShort);
    }
    put(out, at, value);
    Ok(at + count)
}
