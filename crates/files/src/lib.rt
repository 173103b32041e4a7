// Reads a file into a lent buffer, and prints bytes. A read that fails is told from the end of the input: of an input that was not
// read to its end nothing can be judged.
#![tactic(auto)]

ghost use Rattle.std.specs.Prelude.{◌≡◌, ◌<◌, length, IfOk, IfErr, OnErr};
ghost use Rattle.io.specs.Counts.{IsPrefixLen};
ghost use Rattle.files.specs.Answer.{answered, kept};
ghost use Rattle.files.specs.Input.{meaning, Gave, following, Stored, Received};
ghost use Rattle.files.specs.Lines.{known, bytes, unread};

use std::env::{Env, FillError};
use std::fmt::Display;
use std::fs::File;
use std::io::{Error, Read};
use std::ops::ControlFlow;

/// How reading into a buffer ended. What was read stands in the buffer's front, and the bytes behind it stay as they were lent.
/// An enum and no Result: of a read that failed too `Received` says how many bytes it left in the buffer.
#[derive(Clone, Copy, PartialEq, Eq)]
pub enum Input {
    /// The input ended, after so many bytes; they are fewer than the buffer's.
    Ended(usize),
    /// The buffer is full; the input may have more bytes.
    Full,
    /// A read failed, after so many bytes: nothing is known of the input's end.
    Failed(usize),
}

/// The error of an input that could not be read to its end: nothing of it is judged. Why it could not, its source tells.
#[derive(Clone, Copy, PartialEq, Eq)]
pub struct Unread;

/// Where an input comes from: a reader, and the error of its last read that failed.
#[derive(Drop)]
pub struct Source<R> {
    reader: R,
    error: Option<Error>,
}

// The answer of a read: how many bytes it gave. Of one that failed the error is kept.
fn answer_of(answer: Result<usize, Error>, error: &mut Option<Error>) -> Result<usize, Unread>
    ensures value { result ≡ answered answer }
    ensures error_after { error.new ≡ kept answer error.old }
{
    match answer {
        Ok(n) => Ok(n),
        Err(reason) => {
            *error = Some(reason);
            Err(Unread)
        }
    }
}

// What the answer of a read of at most `most` bytes means: that it gave so many, or none, at the end of the input.
fn outcome(got: Result<usize, Unread>, most: usize) -> Result<Option<usize>, Unread>
    ensures { result ≡ meaning got most }
{
    match got? {
        0 => Ok(None),
        n => Ok(Some(n.min(most))),
    }
}

// Reads once, into a piece that has room for one byte at least.
fn read_piece<R: Read>(source: &mut Source<R>, piece: &mut [u8]) -> Result<Option<usize>, Unread>
    requires { 0 < length piece.old }
    ensures { Gave (length piece.old) result }
{
    let got = answer_of(source.reader.read(piece), &mut source.error);
    outcome(got, piece.len())
}

// The buffer and the place stay two parameters: the buffer is lent whole, since `Stored` says that the bytes before the place stay.
// Reads once, into the buffer from `at` on. The bytes go through a piece, because nothing is known of what the system's read leaves
// behind those that it gave.
fn read_once<R: Read>(
    source: &mut Source<R>,
    buffer: &mut [u8],
    at: usize,
    piece: &mut [u8],
) -> Result<Option<usize>, Unread>
    requires { (at < length buffer.old) × (0 < length piece.old) }
    ensures { Stored buffer.old at piece.new result buffer.new }
{
    let most = piece.len().min(buffer.len() - at);
    let once = read_piece(source, &mut piece[..most]);
    if let Ok(Some(n)) = once {
        buffer[at..at + n].copy_from_slice(&piece[..n]);
    }
    once
}

// What follows a read before which `done` bytes were read: it gave so many more, and reading goes on; or reading is over. The end of
// the input and a failure are told apart here.
fn after(once: Result<Option<usize>, Unread>, done: usize) -> ControlFlow<Input, usize>
    ensures { result ≡ following once done }
{
    match once {
        Ok(Some(n)) => ControlFlow::Continue(n),
        Ok(None) => ControlFlow::Break(Input::Ended(done)),
        Err(Unread) => ControlFlow::Break(Input::Failed(done)),
    }
}

/// Reads until the input ends, the buffer is full or a read fails. A read that a signal interrupts before it gives a byte has failed.
/// What the system's reads answer is free; what they answered decides how reading ended.
pub fn read<R: Read>(source: &mut Source<R>, buffer: &mut [u8]) -> Input
    ensures { Received buffer.old result buffer.new }
{
    let mut piece = io::large_buffer();
    let mut done: usize = 0;
    // Each turn goes on by as many bytes as a read gave, so there is nothing to go over by `for`.
    while done < buffer.len() {
        let once = read_once(source, buffer, done, &mut piece);
        match after(once, done) {
            ControlFlow::Continue(n) => done += n,
            ControlFlow::Break(input) => return input,
        }
    }
    Input::Full
}

impl Input {
    /// What there is to judge of an input that was read into a buffer: as many bytes as it had, at most the buffer's; all of them where it
    /// filled the buffer.
    pub fn known(self, buffer: &[u8]) -> Result<&[u8], Unread>
        ensures read { IfOk result (λ s. known self buffer.now ≡ bytes s.now) }
        ensures failed { OnErr result (known self buffer.now ≡ unread) }
    {
        match self {
            Input::Ended(n) => Ok(&buffer[..n.min(buffer.len())]),
            Input::Full => Ok(buffer),
            Input::Failed(_) => Err(Unread),
        }
    }
}

impl<R: Read> Source<R> {
    /// Of which no read has failed.
    pub fn new(reader: R) -> Source<R>
        ensures from { result.reader ≡ reader }
        ensures unfailed { result.error ≡ None }
    {
        Source {
            reader,
            error: None,
        }
    }

    /// Says on standard error why the last read that failed did.
    pub fn tell(&self, rt: &HostRuntime, what: &[u8]) {
        match &self.error {
            Some(error) => say(rt, what, error),
            None => say(rt, what, &"failed"),
        }
    }
}

/// Writes a line to standard error: what it is about or what failed, a colon, and the words on it or the reason.
pub fn say<D: Display>(rt: &HostRuntime, what: &[u8], words: &D) {
    let stderr = rt.stderr();
    let _ = stderr.write_all(what);
    let _ = stderr.println(format_args!(": {words}"));
}

/// Writes all bytes to standard output, or says on standard error why it could not; some of them may then have been written.
pub fn print(rt: &HostRuntime, bytes: &[u8]) {
    if let Err(error) = rt.write_all(bytes) {
        say(rt, b"write", &error);
    }
}

/// Writes a name, what stands between and the lines to standard output, as `print` writes bytes. It only prints, so it ensures nothing either.
pub fn print_behind(rt: &HostRuntime, name: &[u8], between: &[u8], lines: &[u8]) {
    print(rt, name);
    print(rt, between);
    print(rt, lines);
}

/// Writes a number in decimal digits to standard output, as `print` writes bytes.
pub fn print_number(rt: &HostRuntime, n: u64) {
    if let Err(error) = rt.print(n) {
        say(rt, b"write", &error);
    }
}

/// A file that is open, and the size of its name.
#[derive(Drop)]
pub struct Opened {
    /// The file.
    pub file: File,
    /// How many bytes its name has.
    pub size: usize,
}

// Opens a file for reading, or says on standard error why it could not.
fn open(rt: &HostRuntime, name: &[u8]) -> Option<File> {
    let Ok(path) = std::str::from_utf8(name) else {
        say(rt, name, &"not UTF-8");
        return None;
    };
    match File::open(rt, path) {
        Ok(file) => Some(file),
        Err(error) => {
            say(rt, name, &error);
            None
        }
    }
}

/// Opens the file that argument i names for reading and puts its name into the front of a buffer, or says on standard error why it could not.
/// Where it could not, the error is the size of the name that was read: 0 where there is none, or where it does not fit the buffer.
pub fn open_argument(rt: &HostRuntime, i: usize, name: &mut [u8]) -> Result<Opened, usize>
    ensures opened { IfOk result (λ opened. IsPrefixLen opened.size name.new) }
    ensures refused { IfErr result (λ size. IsPrefixLen size name.new) }
{
    match rt.arg(i, name) {
        Ok(size) => match open(rt, &name[..size]) {
            Some(file) => Ok(Opened { file, size }),
            None => Err(size),
        },
        Err(FillError::TooLong) => {
            say(rt, b"argument", &"File name too long");
            Err(0)
        }
        Err(FillError::NotPresent) => {
            say(rt, b"argument", &"Invalid argument");
            Err(0)
        }
    }
}

/// How many arguments there are; the first is the program's name. They are asked for one by one: std's list of them takes memory of the heap.
pub fn argument_count(rt: &HostRuntime) -> usize {
    let mut byte = [0u8; 1];
    for i in 0..usize::MAX {
        if let Err(FillError::NotPresent) = rt.arg(i, &mut byte) {
            return i;
        }
    }
    usize::MAX
}

/// Opens the file that each argument names, one after the other, and hands it over with its name; or says on standard error why it could not.
/// Of the closure it asks what std asks of one: that it may be called, and again after each call.
pub fn open_arguments<F: FnMut(File, &[u8])>(rt: &HostRuntime, mut take: F)
    requires { F.IsAlwaysCallable take }
{
    for i in 1..argument_count(rt) {
        let mut name = io::buffer();
        if let Ok(Opened { file, size }) = open_argument(rt, i, &mut name) {
            take(file, &name[..size]);
        }
    }
}
