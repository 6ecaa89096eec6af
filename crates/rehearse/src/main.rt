// The rehearsal program: a session from standard input to standard output.
#![tactic(auto)]

ghost use Rattle.std.specs.Prelude.{◌≤◌, ◌<◌, length, take, IfOk};
ghost use Rattle.std.specs.Io.KnownBytes.{Consumes, IsAtEnd};

use rehearsal::TooShort;
use std::io;
use std::io::{Read, Write};

// Reads until the buffer is full or the input ends: how many bytes stand at its front, which are those that the input gave.
// The loop stays: it adds up what each `read` gives until the input ends, and `read_to_end` needs a heap.
fn read_full<R: Read>(input: &mut R, buf: &mut [u8]) -> io::Result<usize>
    ensures within { IfOk result (λ n. n ≤ length buf.new) }
    ensures given { IfOk result (λ n. Consumes (R.remaining input.old) (R.remaining input.new) (take n buf.new)) }
    ensures ended { IfOk result (λ n. n < length buf.new → IsAtEnd (R.remaining input.new)) }
{
    let mut at = 0;
    while at < buf.len() {
        let n = input.read(&mut buf[at..])?;
        if n == 0 {
            return Ok(at);
        }
        at += n;
    }
    Ok(at)
}

fn main(rt: HostRuntime) -> io::Result<()> {
    let mut input = [0u8; 65536];
    let n = read_full(&mut rt.reader(), &mut input)?;
    let mut table = [0u32; words::LONGEST];
    table[words::R] = 1;
    let mut out = [0u8; 655370];
    match rehearsal::session(&input[..n], &mut table, &mut out) {
        Ok(k) => io::writer(&rt).write_all(&out[..k]),
        Err(TooShort) => Ok(()),
    }
}
