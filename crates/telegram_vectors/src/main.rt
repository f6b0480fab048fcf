// Replays telegrams.txt of its working directory, telegrams whole and damaged with what document 01 reads them as, against the crate telegram;
// vectors/telegrams says what its lines mean. Each telegram that is accepted is written again, too, and must come out as it came in.
#![tactic(auto)]

ghost use Rattle.std.specs.Prelude.{◌+◌, ◌*◌, ◌≤◌, length, IfOk, OnOk};

use leb128::Got;
use refusal::Refusal;
use std::alloc::AllocError;
use std::fs::File;
use std::io;
use std::io::Read;
use telegram::batch::{read_batch, write_batch_head};
use telegram::body::{Body, read_body, write_body};
use telegram::event::{read_event, write_event};
use telegram::field::Part;
use telegram::head::Head;
use telegram::list::Names;
use telegram::since::{Exception, read_exception, read_since, write_exception, write_since_head};
use vector_text::{hex_byte, number_at};

// The most bytes of a line, and of a telegram.
const BUFFER: usize = 65536;

// A line of numbers: how far they have been met, and whether all of them were.
// kept: `agrees` is asked once, at the line's end; an Option handed on by `?` would stand at every call of a `meets` and say no more
#[derive(Clone, Copy)]
struct Line<'a> {
    text: &'a [u8],
    at: usize,
    agrees: bool,
}

// A thing that stands behind a head.
// kept: not the trait of telegram, which is not public since it asks for at most sixteen names, and knows no lines
trait Listed: Sized {
    fn read(s: &[u8], at: usize, names: usize) -> Result<Got<Self>, Refusal>;

    fn write(&self, out: &mut [u8], at: usize, names: usize, s: &[u8]) -> Result<usize, Refusal>;

    // Meets it as a line gives it.
    fn meet(&self, line: &mut Line, names: usize);
}

impl Listed for Body {
    fn read(s: &[u8], at: usize, names: usize) -> Result<Got<Body>, Refusal> {
        read_body(s, at, names)
    }

    fn write(&self, out: &mut [u8], at: usize, names: usize, s: &[u8]) -> Result<usize, Refusal> {
        write_body(out, at, names, s, self)
    }

    fn meet(&self, line: &mut Line, names: usize) {
        line.meets_body(self, names);
    }
}

impl Listed for Exception {
    fn read(s: &[u8], at: usize, names: usize) -> Result<Got<Exception>, Refusal> {
        read_exception(s, at, names)
    }

    fn write(&self, out: &mut [u8], at: usize, names: usize, _s: &[u8]) -> Result<usize, Refusal> {
        write_exception(out, at, names, *self)
    }

    fn meet(&self, line: &mut Line, _names: usize) {
        line.meets(self.place.0 as u64);
        line.meets(u64::from(self.number));
    }
}

impl<'a> Line<'a> {
    // A line's numbers from a place on.
    fn new(text: &'a [u8], at: usize) -> Line<'a> {
        Line {
            text,
            at,
            agrees: true,
        }
    }

    // Meets a value: the next number.
    fn meets(&mut self, value: u64) {
        if self.text.len() <= self.at {
            self.agrees = false;
            return;
        }
        let number = number_at(self.text, self.at);
        self.at = self.text.len().min(number.next + 1);
        self.agrees = self.agrees && number.value == value;
    }

    // Meets a part.
    fn meets_part(&mut self, part: Part) {
        self.meets(part.start as u64);
        self.meets(part.len as u64);
    }

    // Meets the count of names and each name.
    fn meets_names(&mut self, names: &Names) {
        self.meets(names.count as u64);
        for part in names.parts.iter().take(names.count) {
            self.meets_part(*part);
        }
    }

    // Meets so many entries, and that none stands behind them.
    fn meets_entries(&mut self, entries: &[u32; 16], count: usize) {
        for (i, entry) in entries.iter().enumerate() {
            if i < count {
                self.meets(u64::from(*entry));
            } else if *entry != 0 {
                self.agrees = false;
            }
        }
    }

    // Meets a body of a list of so many names.
    fn meets_body(&mut self, body: &Body, names: usize) {
        self.meets(body.place.0 as u64);
        self.meets(u64::from(body.number));
        self.meets_entries(&body.entries, names);
        self.meets_part(body.operation);
    }

    // Meets a head.
    fn meets_head(&mut self, head: &Head) {
        self.meets_names(&head.names);
        self.meets(head.sender.0 as u64);
        self.meets_entries(&head.entries, head.names.count);
    }

    // Meets so many things from a place on, and writes them there; where one can't be read or written, or ends elsewhere, not all is met.
    fn turns<I: Listed + Drop>(
        &mut self,
        s: &[u8],
        at: usize,
        names: usize,
        count: usize,
        out: &mut [u8],
    ) {
        let mut next = at;
        for _ in 0..count {
            let Ok(item) = I::read(s, next, names) else {
                self.agrees = false;
                return;
            };
            item.value.meet(self, names);
            if item.value.write(out, next, names, s) != Ok(item.next) {
                self.agrees = false;
            }
            next = item.next;
        }
    }

    // Whether all values were met, and nothing but the line's end is left.
    fn is_met(&self) -> bool {
        self.agrees && self.at == self.text.len()
    }

    // Whether a refusal is the whole result of a line.
    fn is_refused(mut self, why: Refusal) -> bool {
        self.meets(u64::from(why.number()));
        self.is_met()
    }
}

// Whether an event telegram is read as the line says, and written again as it was.
fn event_agrees(mut line: Line, s: &[u8], out: &mut [u8]) -> bool {
    match read_event(s) {
        Err(why) => line.is_refused(why),
        Ok(event) => {
            line.meets(0);
            line.meets_names(&event.names);
            line.meets_body(&event.body, event.names.count);
            let end = write_event(out, s, &event.names, s, &event.body);
            line.is_met() && end == Ok(s.len()) && out.starts_with(s)
        }
    }
}

// Whether what stands behind a head that was written is read as the line says, and written again as it was.
fn list_agrees<I: Listed + Drop>(
    mut line: Line,
    head: &Head,
    count: usize,
    start: usize,
    s: &[u8],
    out: &mut [u8],
) -> bool {
    line.meets(0);
    line.meets_head(head);
    line.meets(count as u64);
    line.meets(start as u64);
    line.turns::<I>(s, start, head.names.count, count, out);
    line.is_met() && out.starts_with(s)
}

// Whether a batch telegram is read as the line says, and written again as it was.
fn batch_agrees(line: Line, s: &[u8], out: &mut [u8]) -> bool {
    match read_batch(s) {
        Err(why) => line.is_refused(why),
        Ok(batch) => {
            let behind = s.len().saturating_sub(batch.bodies);
            write_batch_head(out, s, &batch.head, batch.count, behind) == Ok(batch.bodies)
                && list_agrees::<Body>(line, &batch.head, batch.count, batch.bodies, s, out)
        }
    }
}

// Whether a since telegram is read as the line says, and written again as it was.
fn since_agrees(line: Line, s: &[u8], out: &mut [u8]) -> bool {
    match read_since(s) {
        Err(why) => line.is_refused(why),
        Ok(since) => {
            let behind = s.len().saturating_sub(since.exceptions);
            write_since_head(out, s, &since.head, since.count, behind) == Ok(since.exceptions)
                && list_agrees::<Exception>(
                    line,
                    &since.head,
                    since.count,
                    since.exceptions,
                    s,
                    out,
                )
        }
    }
}

// The call that reads a telegram.
#[derive(Clone, Copy)]
enum Call {
    Event,
    Batch,
    Since,
}

impl Call {
    // Whether a telegram is read by the call as a line says.
    fn agrees(self, line: Line, s: &[u8], out: &mut [u8]) -> bool {
        match self {
            Call::Event => event_agrees(line, s, out),
            Call::Batch => batch_agrees(line, s, out),
            Call::Since => since_agrees(line, s, out),
        }
    }
}

// The place behind the first space of a line, or the end.
fn behind_word(text: &[u8]) -> usize
    ensures { result ≤ length text.now }
{
    match text.iter().position(|b| *b == b' ') {
        Some(space) => space + 1,
        None => text.len(),
    }
}

// The telegram that the lines speak of, and the call that reads it.
#[derive(Drop)]
struct Subject {
    call: Option<Call>,
    telegram: Vec<u8>,
}

impl Subject {
    // Takes the telegram that stands in hex in a line.
    fn take(&mut self, call: Call, text: &[u8]) -> Result<(), AllocError> {
        self.call = Some(call);
        self.telegram.clear();
        for pair in text[behind_word(text)..].chunks(2) {
            let Some(byte) = hex_byte(pair) else {
                break;
            };
            if self.telegram.len() == BUFFER {
                break;
            }
            self.telegram.push(byte)?;
        }
        Ok(())
    }

    // Whether the telegram's first so many bytes are read as the line says.
    fn cut_agrees(&self, call: Call, text: &[u8], out: &mut [u8]) -> bool {
        let end = number_at(text, behind_word(text));
        match self.telegram.get(..end.value as usize) {
            Some(cut) => call.agrees(Line::new(text, text.len().min(end.next + 1)), cut, out),
            None => false,
        }
    }

    // Whether the telegram with one byte changed is read as the line says; the byte is put back.
    fn put_agrees(&mut self, call: Call, text: &[u8], out: &mut [u8]) -> bool {
        let place = number_at(text, behind_word(text));
        let byte = number_at(text, text.len().min(place.next + 1));
        let i = place.value as usize;
        if self.telegram.len() <= i {
            return false;
        }
        let old = self.telegram[i];
        self.telegram[i] = (byte.value % 256) as u8;
        let agreed = call.agrees(
            Line::new(text, text.len().min(byte.next + 1)),
            &self.telegram,
            out,
        );
        self.telegram[i] = old;
        agreed
    }

    // Whether a line that says what is read agrees.
    fn agrees(&mut self, text: &[u8], out: &mut [u8]) -> bool {
        let Some(call) = self.call else {
            return false;
        };
        match text.first() {
            Some(b'w') => call.agrees(Line::new(text, behind_word(text)), &self.telegram, out),
            Some(b'c') => self.cut_agrees(call, text, out),
            Some(b'p') => self.put_agrees(call, text, out),
            _ => false,
        }
    }
}

// How far the file has been replayed: how many lines agree of those that say what is read, and how many lines there were.
#[derive(Drop)]
struct Run {
    agreed: u64,
    lines: u64,
    subject: Subject,
    ghost counted: { agreed ≤ lines },
}

impl Run {
    // Replays a line; prints its number where it disagrees.
    fn line(&mut self, rt: &HostRuntime, text: &[u8], out: &mut [u8]) -> io::Result<()>
        ensures { OnOk result (self.new.lines ≤ self.old.lines + 1) }
    {
        self.lines = self.lines.saturating_add(1);
        match text.first() {
            Some(b'#') | None => {}
            Some(b'e') => self.subject.take(Call::Event, text)?,
            Some(b'b') => self.subject.take(Call::Batch, text)?,
            Some(b's') => self.subject.take(Call::Since, text)?,
            _ => {
                if self.subject.agrees(text, out) {
                    self.agreed = self.agreed.saturating_add(1);
                } else {
                    let line = self.lines;
                    println!(rt; "disagrees: line {line}")?;
                }
            }
        }
        Ok(())
    }

    // Replays lines, each once.
    fn replay(&mut self, rt: &HostRuntime, text: &[u8], out: &mut [u8]) -> io::Result<()>
        ensures { OnOk result (self.new.lines ≤ self.old.lines + length text.now) }
    {
        for line in text.split_inclusive(|b| *b == b'\n') {
            self.line(rt, line, out)?;
        }
        Ok(())
    }
}

// The place behind the last line feed, 0 where there is none.
fn last_end(s: &[u8]) -> usize
    ensures { result ≤ length s.now }
{
    s.iter()
        .rposition(|b| *b == b'\n')
        .map_or(0, |feed| feed + 1)
}

// Reads until a buffer is full or the file ends, and answers how many bytes were read.
fn read_full(file: &mut File, buffer: &mut [u8]) -> io::Result<usize>
    ensures { IfOk result (λ n. n ≤ length buffer.new) }
{
    let mut n = 0;
    for _ in 0..BUFFER {
        if n == buffer.len() {
            break;
        }
        let more = file.read(&mut buffer[n..])?;
        if more == 0 {
            break;
        }
        n += more;
    }
    Ok(n)
}

// Replays a file by a buffer, which every line fits into.
fn replay_file(
    rt: &HostRuntime,
    file: &mut File,
    buffer: &mut [u8],
    run: &mut Run,
    out: &mut [u8],
) -> io::Result<()>
    ensures { OnOk result (run.new.lines ≤ run.old.lines + 1000 * length buffer.old) }
{
    let mut have = 0;
    for turn in 0..1000usize {
        let n = read_full(file, &mut buffer[have..])?;
        let held = have + n;
        let end = last_end(&buffer[..held]);
        run.replay(rt, &buffer[..end], out)?;
        buffer.copy_within(end..held, 0);
        have = held - end;
        if n == 0 {
            break;
        }
    }
    Ok(())
}

fn main(rt: HostRuntime) -> io::Result<()> {
    let mut file = File::open(&rt, "telegrams.txt")?;
    let mut buffer = vec![in rt.alloc(); 0u8; BUFFER]?;
    let mut out = vec![in rt.alloc(); 0u8; BUFFER]?;
    let subject = Subject {
        call: None,
        telegram: Vec::with_capacity(rt.alloc(), BUFFER)?,
    };
    let mut run = Run {
        agreed: 0,
        lines: 0,
        subject,
    };
    replay_file(&rt, &mut file, &mut buffer, &mut run, &mut out)?;
    let agreed = run.agreed;
    println!(rt; "{agreed} readings agree")
}
