// Replays uleb128.txt of its working directory, numbers and their bytes as another program wrote them, against the crate leb128.
#![tactic(auto)]

use arrayvec::ArrayVec;
use leb128::Got;
use refusal::Refusal;
use std::{fs, io};
use vector_text::{hex_byte, number_at};

// What a line says: a number and its bytes.
#[derive(Drop)]
struct Row {
    value: u32,
    bytes: ArrayVec<u8, 8>,
}

// What a line with its line feed says: a number, a space, bytes; none where it can't be read.
fn row_of(line: &[u8]) -> Option<Row> {
    let number = number_at(line, 0);
    let gap = number.next;
    if gap == 0 || 98 < gap || line.len() <= gap || line[gap] != b' ' {
        return None;
    }
    let value = u32::try_from(number.value).ok()?;
    let hex = line[gap + 1..].strip_suffix(b"\n")?;
    let mut bytes = ArrayVec::new();
    for pair in hex.chunks(2) {
        bytes.try_push(hex_byte(pair)?).ok()?;
    }
    Some(Row { value, bytes })
}

impl Row {
    // A buffer of 0xAA with the number's bytes from place 3 on.
    fn filled(&self) -> [u8; 16] {
        let bytes = self.bytes.as_slice();
        let mut out = [0xAA; 16];
        out[3..3 + bytes.len()].copy_from_slice(bytes);
        out
    }

    // Whether writing the number at place 3 of a buffer of 0xAA makes it the one given and ends behind the number.
    fn is_written(&self, whole: &[u8; 16]) -> bool {
        let mut out = [0xAA; 16];
        leb128::write(&mut out, 3, self.value) == Ok(3 + self.bytes.len()) && out == *whole
    }

    // Whether place 3 is read as the number, and the place behind it is given.
    fn is_read(&self, whole: &[u8; 16]) -> bool {
        let value = self.value;
        let next = 3 + self.bytes.len();
        leb128::read(whole, 3) == Ok(Got { value, next })
    }

    // Whether every part that ends before the number does is refused for ending inside a number.
    fn is_cut(&self, whole: &[u8; 16]) -> bool {
        (3..3 + self.bytes.len()).all(|end| leb128::read(&whole[..end], 3)
            == Err(Refusal::EndsInField))
    }

    // Whether the number and its bytes agree with the crate in every way.
    fn holds(&self, rt: &HostRuntime, line: usize) -> io::Result<bool> {
        let whole = self.filled();
        let count = self.bytes.len();
        let writes = told(rt, self.is_written(&whole), line, "write")?;
        let counts = told(rt, leb128::width(self.value) == count, line, "width")?;
        let reads = told(rt, self.is_read(&whole), line, "read")?;
        let cuts = told(rt, self.is_cut(&whole), line, "read of a prefix")?;
        Ok(writes && counts && reads && cuts)
    }
}

// Hands a check's outcome on; where it failed, prints the line's number and what disagrees.
fn told(rt: &HostRuntime, ok: bool, line: usize, what: &str) -> io::Result<bool> {
    if !ok {
        println!(rt; "line {line}: {what}")?;
    }
    Ok(ok)
}

// Whether a line agrees.
fn agrees(rt: &HostRuntime, text: &[u8], line: usize) -> io::Result<bool> {
    match row_of(text) {
        None => told(rt, false, line, "no number and bytes"),
        Some(row) => row.holds(rt, line),
    }
}

// How many lines agree, but for those that begin with '#'.
fn replay(rt: &HostRuntime, text: &[u8]) -> io::Result<usize> {
    let mut agreed = 0;
    for (i, line) in text.split_inclusive(|b| *b == b'\n').enumerate() {
        if !line.starts_with(b"#") && agrees(rt, line, i + 1)? {
            agreed += 1;
        }
    }
    Ok(agreed)
}

fn main(rt: HostRuntime) -> io::Result<()> {
    let text = fs::read(&rt, "uleb128.txt")?;
    let agreed = replay(&rt, &text)?;
    println!(rt; "{agreed} numbers agree")
}
