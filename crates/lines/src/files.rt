// A data file or standard input, whole. No contract can say what stands there.
ghost use Rattle.std.specs.Prelude.{◌≡◌, ◌≢◌, ◌<◌, ◌≤◌, length, vec_len, IfOk, IfErr};
ghost use Rattle.std.specs.Io.{ReadsAtMost};
ghost use Rattle.std.specs.IoError.{error_kind};

use std::io::{Cursor, ErrorKind, Read, Write};
use std::rt::Files;
use std::{fs, io};

// The most bytes that a file of cases or standard input may have.
pub const TEXT_MOST: usize = 524_287;

// 4,096 zeros. Their length is what lending them as a slice asks.
pub fn buffer() -> [u8; 4096]
    ensures { 4096 ≡ length result }
{
    [0; 4096]
}

// The same of 65,536.
pub fn large_buffer() -> [u8; 65536]
    ensures { 65536 ≡ length result }
{
    [0; 65536]
}

// Reads into the start of text until it is full or the input ends, and answers how many bytes it read.
pub fn read_full(input: &mut impl Read, text: &mut [u8]) -> io::Result<usize>
    ensures { ReadsAtMost result text.new }
{
    let mut n = 0;
    while n < text.len() {
        let more = input.read(&mut text[n..])?;
        if more == 0 {
            return Ok(n);
        }
        n += more;
    }
    Ok(n)
}

// Reads all of an open file into the start of text, and answers how many bytes it has; 0 where it leaves no byte of text free, which is said
// by this name.
fn read_all(
    rt: &impl Print,
    input: &mut impl Read,
    name: &[u8],
    text: &mut [u8],
) -> io::Result<usize>
    ensures prefix_len { ReadsAtMost result text.new }
    ensures upper_bound { IfOk result (λ n. 0 < n → n < length text.old) }
{
    let n = read_full(input, text)?;
    if n == text.len() {
        rt.write_all(name)?;
        rt.write_all(b": does not fit\n")?;
        return Ok(0);
    }
    Ok(n)
}

// Says on standard error that the file of that name can't be opened, in the system's words, without the number that std puts behind them.
fn print_failure(rt: &impl Eprint, name: &str, error: io::Error) -> io::Result<()> {
    let mut message = Cursor::new([0u8; 320]);
    write!(message, "{error}")?;
    let bytes = message.into_inner();
    let words = std::str::from_utf8(&bytes).unwrap_or("");
    match words.split_once(" (os error ") {
        Some((system, _)) => eprintln!(rt; "{name}: {system}"),
        None => eprintln!(rt; "{name}: {error}"),
    }
}

// Reads the file of that name into the start of text, and answers how many bytes it has; 0 where it can't be opened or leaves no byte of text
// free, which is said. Where a read fails, that is the answer.
pub fn read_file(
    rt: &(impl Files + Print + Eprint),
    name: &[u8],
    text: &mut [u8],
) -> io::Result<usize>
    ensures prefix_len { ReadsAtMost result text.new }
    ensures upper_bound { IfOk result (λ n. 0 < n → n < length text.old) }
{
    let Ok(path) = std::str::from_utf8(name) else {
        eprintln!(rt; "a file's name is no text")?;
        return Ok(0);
    };
    match fs::open(rt, path) {
        Ok(mut file) => read_all(rt, &mut file, name, text),
        Err(error) => {
            print_failure(rt, path, error)?;
            Ok(0)
        }
    }
}

// The same of standard input.
pub fn read_input(rt: &(impl Input + Print), text: &mut [u8]) -> io::Result<usize>
    ensures prefix_len { ReadsAtMost result text.new }
    ensures upper_bound { IfOk result (λ n. 0 < n → n < length text.old) }
{
    let mut input = rt.reader();
    read_all(rt, &mut input, b"standard input", text)
}

// The bytes of the file of that name, as `read_file` reads them. One that can't be opened or has more bytes than most counts as empty.
pub fn load_file(
    rt: &(impl Files + Print + Eprint + AllocGlobal),
    name: &str,
    most: usize,
) -> io::Result<Vec<u8>>
    ensures { IfOk result (λ text. vec_len text ≤ most) }
{
    let mut text = vec![in rt.alloc(); 0; most.saturating_add(1)]?;
    let n = read_file(rt, name.as_bytes(), &mut text)?;
    text.truncate(n);
    Ok(text)
}

// The same of standard input.
fn load_most(rt: &(impl Input + Print + AllocGlobal), most: usize) -> io::Result<Vec<u8>>
    ensures { IfOk result (λ text. vec_len text ≤ most) }
{
    let mut text = vec![in rt.alloc(); 0; most.saturating_add(1)]?;
    let n = read_input(rt, &mut text)?;
    text.truncate(n);
    Ok(text)
}

// The bytes of standard input, as `read_input` reads them. More than a file of cases may have count as none.
pub fn load_input(rt: &(impl Input + Print + AllocGlobal)) -> io::Result<Vec<u8>>
    ensures { IfOk result (λ text. vec_len text ≤ 524287) }
{
    load_most(rt, TEXT_MOST)
}

// The first bytes of an input, at most so many. A read that is interrupted is tried again.
pub fn read_most(rt: &impl AllocGlobal, input: &mut impl Read, most: u64) -> io::Result<Vec<u8>>
    ensures first { IfOk result (λ text. vec_len text ≤ most) }
    ensures retried { IfErr result (λ e. error_kind e ≢ ErrorKind.Interrupted) }
{
    let mut text = Vec::new(rt.alloc());
    input.take(most).read_to_end(&mut text)?;
    text.truncate(most as usize);
    Ok(text)
}
