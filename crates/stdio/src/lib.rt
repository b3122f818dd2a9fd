// Standard input, output and error of the programs, over std's readers and writers.
#![tactic(auto)]

ghost use Rattle.std.specs.Prelude.{◌≡◌, ◌+◌, ◌-◌, ◌^◌, ◌<◌, IfOk, IsOk, IsTrue, length, take, drop};
ghost use Rattle.std.specs.Io.KnownBytes.{Appends, Consumes, IsAtEnd};
ghost use Rattle.stdio.specs.Reading.{after_read, count_read, ReadInto};
ghost use Rattle.stdio.specs.Inner.{ReadAfter};

use std::io;
use std::io::{Read, Write};

// A read failed: so many bytes had been read, and there may be more to read.
#[derive(Clone, Copy, Debug, PartialEq, Eq)]
pub struct ReadFailed {
    pub count: usize,
}

// How many bytes have been read once a read answered, `count` bytes having been read before it.
fn after_read(count: usize, answer: io::Result<usize>) -> Result<usize, ReadFailed>
    requires { IfOk answer (λ got. count + got < 2 ^ 64) }
    ensures { result ≡ after_read count answer }
{
    match answer {
        Ok(got) => Ok(count + got),
        Err(_) => Err(ReadFailed { count }),
    }
}

// One read more, into `buf` after the `count` bytes that were read before: how many have been read then.
fn read_more<R: Read>(reader: &mut R, buf: &mut [u8], count: usize) -> Result<usize, ReadFailed>
    requires { count < length buf.old }
    ensures after { ReadAfter count buf.new result }
    ensures front { take count buf.new ≡ take count buf.old }
    ensures bytes { Consumes (R.remaining reader.old) (R.remaining reader.new) (take (count_read result - count) (drop count buf.new)) }
    ensures end { result ≡ Ok count → IsAtEnd (R.remaining reader.new) }
{
    let answer = reader.read(&mut buf[count..]);
    after_read(count, answer)
}

// Reads until `buf` is full, the input ends or a read fails.
fn read_to_end<R: Read>(reader: &mut R, buf: &mut [u8]) -> Result<usize, ReadFailed>
    ensures into { ReadInto buf.new result }
    ensures bytes { Consumes (R.remaining reader.old) (R.remaining reader.new) (take (count_read result) buf.new) }
    ensures end { IsOk result → count_read result < length buf.new → IsAtEnd (R.remaining reader.new) }
{
    let mut count: usize = 0;
    // Each read adds as many bytes as the input gives, so this is no count of turns.
    while count < buf.len() {
        let now = read_more(reader, buf, count)?;
        if now == count {
            return Ok(now);
        }
        count = now;
    }
    Ok(count)
}

// Reads standard input into `buf`: how many bytes stand at its front. Where a read fails it says so on standard error.
pub fn read_input(rt: &(impl Input + Eprint), buf: &mut [u8]) -> Result<usize, ReadFailed>
    ensures { ReadInto buf.new result }
{
    let mut reader = rt.reader();
    let read = read_to_end(&mut reader, buf);
    if read.is_err() {
        let _ = rt.eprint("cannot read\n");
    }
    read
}

// Writes all of `bytes`, and says whether it could.
fn write_whole<W: Write>(writer: &mut W, bytes: &[u8]) -> bool
    ensures { IsTrue result → Appends (W.contents writer.old) (W.contents writer.new) bytes.now }
{
    writer.write_all(bytes).is_ok()
}

// Writes to standard output. Where not all can be written it says so on standard error. No contract can say what the system writes.
pub fn print(rt: &(impl Print + Eprint), bytes: &[u8]) {
    if !write_whole(&mut io::writer(rt), bytes) {
        let _ = rt.eprint("cannot write\n");
    }
}

#[cfg(test)]
mod tests;
