// What the programs share: room for a text, reading a file or the standard input into a buffer, and writing bytes out
// (SPECIFICATION 14.1, 14.3).
#![tactic(auto)]

ghost use Rattle.std.specs.Prelude.{◌≡◌, ℕ, ◌≤◌, length, get_or, take};

use std::fs::File;
use std::io::Read;
use std::rt::Files;
use std::{io, str};

// More than the largest text, so that a longer one is seen to be longer; the contract below says its length.
const TEXT_ROOM: usize = 65536;

// Zeros, to read into or to print from. They stand behind a function because antt must not unfold an array of so many.
pub fn room<const BYTES: usize>() -> [u8; BYTES]
    ensures long { length result ≡ BYTES }
    ensures zeros { (i : ℕ) → get_or result i 0 ≡ 0 }
{
    [0; BYTES]
}

pub fn text_room() -> [u8; TEXT_ROOM]
    ensures { 65536 ≡ length result }
{
    room()
}

// Reads until the buffer is full, the input ends or a read fails, and answers how many bytes it put at the start of the
// buffer.
pub fn read_full(from: &mut impl Read, buf: &mut [u8]) -> usize
    ensures bound { result ≤ length buf.new }
    ensures prefix { result ≡ length (take result buf.new) }
{
    let mut done = 0;
    while done < buf.len() {
        let n = from.read(&mut buf[done..]).unwrap_or(0);
        if n == 0 {
            break;
        }
        done += n;
    }
    done
}

// What can be read of a file, at most as much as the buffer holds. An unreadable file counts as empty, and so does one
// whose name is no UTF-8 text.
pub fn read_file(rt: &impl Files, path: &[u8], buf: &mut [u8]) -> usize
    ensures bound { result ≤ length buf.new }
    ensures prefix { result ≡ length (take result buf.new) }
{
    let Ok(name) = str::from_utf8(path) else {
        return 0;
    };
    match File::open(rt, name) {
        Ok(mut file) => read_full(&mut file, buf),
        Err(_) => 0,
    }
}

// What can be read of the standard input, at most as much as the buffer holds.
pub fn read_input(rt: &impl Input, buf: &mut [u8]) -> usize
    ensures bound { result ≤ length buf.new }
    ensures prefix { result ≡ length (take result buf.new) }
{
    read_full(&mut rt.reader(), buf)
}

pub fn put(rt: &impl Print, s: &[u8]) -> io::Result<()> {
    rt.write_all(s)
}
