// The lines that `receive` prints, put into a buffer.
#![tactic(auto)]

ghost use Rattle.std.specs.Prelude.{◌≡◌, [], ◌∷◌, ◌+◌, ◌*◌, ◌≤◌, ◌<◌, length};
ghost use Rattle.receive_lines.specs.Line.{decimal, hex_digit, hex, code_line, ok_line, cut_line, end_line, line as line_of};
ghost use Rattle.receive_lines.specs.Clauses.{spaced, PutPost, Room, Put};

use arrays::BYTES;

// Room for the longest line: `ok`; two numbers of 21 bytes, a space and the 20 digits that a u64 has at most; a space and a payload in
// hexadecimal; and the line feed.
pub const LINE: usize = 2 + 2 * 21 + 1 + 2 * BYTES + 1;

// A lower-case hexadecimal digit.
fn hex_digit(d: u8) -> u8
    requires { d < 16 }
    ensures { result ≡ hex_digit d }
{
    if d < 10 { b'0' + d } else { b'a' + (d - 10) }
}

// A line that is being put into a lent buffer: so far it is the first `end` bytes.
#[derive(Drop)]
struct Line<'a> {
    buffer: &'a mut [u8],
    end: usize,
}

impl<'a> Line<'a> {
    // A line of no bytes.
    fn new(buffer: &'a mut [u8]) -> Line<'a>
        ensures { result ≡ record { buffer = buffer.entry; end = 0 } }
    {
        Line { buffer, end: 0 }
    }

    // Puts a byte.
    fn put_byte(&mut self, byte: u8)
        requires { Room self.old 1 }
        ensures { Put self.old (byte ∷ []) self.new }
    {
        self.buffer[self.end] = byte;
        self.end += 1;
    }

    // Puts bytes.
    fn put_bytes(&mut self, bytes: &[u8])
        requires { Room self.old (length bytes.now) }
        ensures { Put self.old bytes.now self.new }
    {
        let end = self.end + bytes.len();
        arrays::copy(bytes, 0, self.buffer, self.end, bytes.len());
        self.end = end;
    }

    // Puts a number in decimal: the digits of n / 10, then the last digit.
    fn put_decimal(&mut self, n: u64)
        requires { Room self.old (length (decimal n)) }
        ensures { Put self.old (decimal n) self.new }
    {
        if n >= 10 {
            self.put_decimal(n / 10);
        }
        self.put_byte(b'0' + (n % 10) as u8);
    }

    // Puts a space and a number, which has at most 20 digits.
    fn put_number(&mut self, n: u64)
        requires { Room self.old 21 }
        ensures put { Put self.old (spaced (decimal n)) self.new }
        ensures most { self.new.end ≤ self.old.end + 21 }
    {
        self.put_byte(b' ');
        self.put_decimal(n);
    }

    // Puts bytes in lower-case hexadecimal, two digits a byte.
    fn put_hex(&mut self, bytes: &[u8])
        requires { Room self.old (2 * length bytes.now) }
        ensures { Put self.old (hex bytes.now) self.new }
    {
        for byte in bytes {
            self.put_byte(hex_digit(*byte / 16));
            self.put_byte(hex_digit(*byte % 16));
        }
    }
}

// The line of a word and a number.
pub fn put_line(line: &mut [u8], word: &[u8], n: u64) -> usize
    requires { (length word.now ≤ 4) × (LINE ≤ length line.old) }
    ensures { PutPost line.old 0 (line_of word.now (decimal n ∷ [])) line.new result }
{
    let mut text = Line::new(line);
    text.put_bytes(word);
    text.put_number(n);
    text.put_byte(b'\n');
    text.end
}

// The line `code N k r`.
pub fn put_code(line: &mut [u8], size: u64, k: u64, r: u64) -> usize
    requires { LINE ≤ length line.old }
    ensures { PutPost line.old 0 (code_line size k r) line.new result }
{
    let mut text = Line::new(line);
    text.put_bytes(b"code");
    text.put_number(size);
    text.put_number(k);
    text.put_number(r);
    text.put_byte(b'\n');
    text.end
}

// The line `ok trial steps payload`.
pub fn put_ok(line: &mut [u8], trial: u64, steps: u64, payload: &[u8]) -> usize
    requires { (length payload.now ≤ BYTES) × (LINE ≤ length line.old) }
    ensures { PutPost line.old 0 (ok_line trial steps payload.now) line.new result }
{
    let mut text = Line::new(line);
    text.put_bytes(b"ok");
    text.put_number(trial);
    text.put_number(steps);
    text.put_byte(b' ');
    text.put_hex(payload);
    text.put_byte(b'\n');
    text.end
}

// The line `cut`: the input ends inside a record, or a length is below 4.
pub fn put_cut(line: &mut [u8]) -> usize
    requires { LINE ≤ length line.old }
    ensures { PutPost line.old 0 cut_line line.new result }
{
    let mut text = Line::new(line);
    text.put_bytes(b"cut\n");
    text.end
}

// The last line: `end` and the number of whole records.
pub fn put_end(line: &mut [u8], count: u64) -> usize
    requires { LINE ≤ length line.old }
    ensures { PutPost line.old 0 (end_line count) line.new result }
{
    put_line(line, b"end", count)
}
