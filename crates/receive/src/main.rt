// Reads records from standard input, and prints a line for each. What is read next, what is printed and when it is written is decided and proved
// in `receive_stream`: this file only reads and writes.
#![tactic(auto)]

ghost use Rattle.std.specs.Prelude.{◌≡◌, ◌≤◌, IfErr, IfOk, length};
ghost use Rattle.std.specs.IoError.{error_kind};
ghost use Rattle.receive.specs.Clauses.{Rooms, StreamOver};

use code::LONGEST;
use receive_stream::Stream;
use std::io;
use std::io::{ErrorKind, Read, Write};

// The longest record.
const RECORD: usize = 65535;

// Lines are collected before they are written.
const OUTPUT: usize = 16384;

// Reads until the buffer is full or the input ends. Returns how many bytes were read. A read that was interrupted is made again. Any other read that
// fails counts as the end of the input.
fn read_full<R: Read>(reader: &mut R, buffer: &mut [u8]) -> usize
    ensures { result ≤ length buffer.new }
{
    let mut filled = 0usize;
    for _ in 0..u64::MAX {
        if filled >= buffer.len() {
            break;
        }
        match reader.read(&mut buffer[filled..]) {
            Ok(0) => break,
            Ok(n) => filled += n,
            Err(error) => {
                if error.kind() != ErrorKind::Interrupted {
                    break;
                }
            }
        }
    }
    filled
}

// Reads and writes until the stream is over. No input is long enough for the turns to reach their bound. The only error is the writer's, if nobody reads
// what is written any more: the buffers then hold what was read and made before it. After any other write that fails the stream goes on.
fn receive<R: Read, W: Write>(
    reader: &mut R,
    writer: &mut W,
    bytes: &mut [u8],
    held: &mut [u8],
    output: &mut [u8],
) -> io::Result<Stream>
    requires { Rooms LONGEST bytes.old held.old output.old }
    ensures over { IfOk result StreamOver }
    ensures broken_pipe { IfErr result (λ e. error_kind e ≡ ErrorKind.BrokenPipe) }
{
    let mut stream = Stream::start();
    for _turn in 0..u64::MAX {
        if stream.wanted == 0 {
            return Ok(stream);
        }
        let there = stream.there;
        let end = there + stream.wanted;
        let got = read_full(reader, &mut bytes[there..end]);
        stream = stream.advance(got, bytes, held, output);
        let ready = stream.ready;
        if let Err(error) = writer.write_all(&output[..ready]) {
            if error.kind() == ErrorKind::BrokenPipe {
                return Err(error);
            }
        }
    }
    Ok(stream)
}

fn main(rt: HostRuntime) -> io::Result<()> {
    let mut bytes = [0u8; RECORD];
    let mut held = [0u8; LONGEST];
    let mut output = [0u8; OUTPUT];
    let mut reader = rt.stdin();
    let mut writer = rt.stdout();
    receive(&mut reader, &mut writer, &mut bytes, &mut held, &mut output)?;
    Ok(())
}
