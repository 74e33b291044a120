// What `receive` prints for a stream of records: how many bytes it reads next, what they say, and when its output is written. The program only
// reads and writes.
#![tactic(auto)]

ghost use Rattle.std.specs.Prelude.{◌≡◌, ◌++◌, ◌+◌, ◌≤◌, ◌<◌, length};
ghost use Rattle.receive_lines.specs.Line.{cut_line, end_line};
ghost use Rattle.receive_stream.specs.Clauses.{room, most_turns, starting, ahead_of, Fits};
ghost use Rattle.receive_stream.specs.Clauses.{ReadyPost, RespondToPre, RespondToPost, EndPost, AdvancePre, AdvancePost};

use code::LONGEST;
use receive_lines::{LINE, put_cut, put_end};
use receive_record::{Held, read_header, respond};

// A record begins with its length and its kind.
const HEADER: usize = 4;

// Room for what one step prints: a record's line, or `cut` and `end`.
const ROOM: usize = 2 * LINE;

// What is known of a record from the bytes read so far.
#[derive(Clone, Copy)]
enum Ahead {
    // it is complete
    Whole,
    // this many bytes are still to come: of its header, or of the whole record
    Missing(usize),
    // its length field is below 4
    Short,
}

impl Ahead {
    // What is known of a record of which `bytes` have been read.
    fn of(bytes: &[u8]) -> Ahead
        ensures { (result ≡ ahead_of bytes.now) × Fits bytes.now result }
    {
        let there = bytes.len();
        if there < HEADER {
            return Ahead::Missing(HEADER - there);
        }
        let size = read_header(bytes).length;
        if size < 4 {
            return Ahead::Short;
        }
        if there < size {
            return Ahead::Missing(size - there);
        }
        Ahead::Whole
    }
}

// How many of the waiting bytes are written now: all of them if what the next step prints may not fit after them, else none.
fn ready_of(waiting: usize, size: usize) -> usize
    requires { waiting ≤ size }
    ensures { ReadyPost waiting size result }
{
    if size - waiting < ROOM { waiting } else { 0 }
}

// The state of a stream between two reads. The current record, the held description and the output have a buffer each.
#[derive(Clone, Copy)]
pub struct Stream {
    // bytes of the current record read so far
    pub there: usize,
    // most bytes to read next, 0 at the end of the stream
    pub wanted: usize,
    // bytes of the description that is held, 0 if none is
    pub held: usize,
    // whole records so far
    pub count: u64,
    // reads so far
    pub turns: u64,
    // bytes at the start of the output that wait, once the ready ones are written
    pub waiting: usize,
    // bytes at the start of the output to be written now
    pub ready: usize,
}

impl Stream {
    // A stream of which nothing has been read.
    pub fn start() -> Stream
        ensures { result ≡ starting }
    {
        Stream {
            there: 0,
            wanted: HEADER,
            held: 0,
            count: 0,
            turns: 0,
            waiting: 0,
            ready: 0,
        }
    }

    // Responds to a whole record.
    fn respond_to(self, bytes: &[u8], held: &mut [u8], output: &mut [u8]) -> Stream
        requires { RespondToPre LONGEST self bytes.now held.old output.old }
        ensures { RespondToPost self bytes.now held.old output.old held.new output.new result }
    {
        let mut description = Held {
            buffer: held,
            size: self.held,
        };
        let end = respond(&mut description, bytes, &mut output[self.waiting..]);
        let waiting = self.waiting + end;
        let written = ready_of(waiting, output.len());
        Stream {
            there: 0,
            wanted: HEADER,
            held: description.size,
            count: self.count + 1,
            turns: self.turns + 1,
            waiting: waiting - written,
            ready: written,
        }
    }

    // Ends a stream with the line `end`. All output is written.
    fn finish(self, output: &mut [u8]) -> Stream
        requires { (self.waiting + LINE ≤ length output.old) × (self.turns < most_turns) }
        ensures { EndPost self (end_line self.count) output.old output.new result }
    {
        let end = put_end(&mut output[self.waiting..], self.count);
        Stream {
            there: 0,
            wanted: 0,
            turns: self.turns + 1,
            waiting: 0,
            ready: self.waiting + end,
            ..self
        }
    }

    // Ends a stream with the lines `cut` and `end`.
    fn cut(self, output: &mut [u8]) -> Stream
        requires { (self.waiting + room ≤ length output.old) × (self.turns < most_turns) }
        ensures { EndPost self (cut_line ++ end_line self.count) output.old output.new result }
    {
        let end = put_cut(&mut output[self.waiting..]);
        let after = Stream {
            waiting: self.waiting + end,
            ..self
        };
        after.finish(output)
    }

    // Goes on after `got` more bytes of the current record have been read. `got` is 0 only at the end of the input.
    pub fn advance(self, got: usize, bytes: &[u8], held: &mut [u8], output: &mut [u8]) -> Stream
        requires { AdvancePre LONGEST self got bytes.now held.old output.old }
        ensures { AdvancePost self got bytes.now held.old output.old
            held.new output.new result }
    {
        let there = self.there + got;
        match Ahead::of(&bytes[..there]) {
            Ahead::Whole => self.respond_to(&bytes[..there], held, output),
            Ahead::Short => self.cut(output),
            Ahead::Missing(_) if there == 0 => self.finish(output),
            Ahead::Missing(_) if got == 0 => self.cut(output),
            Ahead::Missing(wanted) => Stream {
                there,
                wanted,
                turns: self.turns + 1,
                ready: 0,
                ..self
            },
        }
    }
}
