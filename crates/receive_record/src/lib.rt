// What `receive` does with one record: the line that it prints, and the description that it holds.
#![tactic(auto)]

ghost use Rattle.std.specs.Prelude.{◌≡◌, ◌≤◌, ◌<◌, length};
ghost use Rattle.receive_record.specs.Clauses.{RespondPost, header_of, held_bytes};
ghost use Rattle.receive_record.specs.Respond.{description_response, responded};

mod held;
mod kind;

pub use held::Held;
pub use kind::Kind;
use receive_frame::{put_channel, put_refusal};
use receive_lines::{LINE, put_code, put_line};

// The start of a record.
#[derive(Clone, Copy)]
pub struct Header {
    // the record's length in bytes, header included
    pub length: usize,
    // what the record is
    pub kind: Kind,
}

// Length and kind at the start of a record. Both are words of 16 bits.
pub fn read_header(bytes: &[u8]) -> Header
    requires { 4 ≤ length bytes.now }
    ensures { (result ≡ header_of bytes.now) × (result.length < 65536) }
{
    Header {
        length: code::read_word(bytes, 0) as usize,
        kind: Kind::from(code::read_word(bytes, 2)),
    }
}

// Responds to a description: it is held if it is accepted. Returns its line's length.
fn respond_description(held: &mut Held, bytes: &[u8], line: &mut [u8]) -> usize
    requires { LINE ≤ length line.old }
    ensures { RespondPost held.old (description_response (held_bytes held.old) bytes.now) line.new held.new result }
{
    match code::read_description(bytes) {
        Ok(code) => {
            held.hold(bytes);
            put_code(line, 1u64 << code.n, code.k as u64, code.r as u64)
        }
        Err(x) => put_refusal(line, x),
    }
}

// Responds to a whole record: its line is put at the start of `line`. Returns the line's length.
pub fn respond(held: &mut Held, bytes: &[u8], line: &mut [u8]) -> usize
    requires { (4 ≤ length bytes.now) × (LINE ≤ length line.old) }
    ensures { RespondPost held.old (responded (held_bytes held.old) bytes.now) line.new held.new result }
{
    match read_header(bytes).kind {
        Kind::Description(_) => respond_description(held, bytes, line),
        Kind::Channel => put_channel(line, held.bytes(), bytes),
        Kind::Other(number) => put_line(line, b"skip", number as u64),
    }
}
