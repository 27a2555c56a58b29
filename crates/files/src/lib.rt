// The files that the programs read: the bytes of one, by its name or by the argument that names it. Where it cannot be read, a line on
// standard error says why.

#![tactic(auto)]

ghost use Rattle.std.specs.Prelude.{◌≡◌, ◌≤◌, length, Err, IfOk, MatchResult};
ghost use Rattle.files.specs.declared.Unread.TheVariants.{Failed, Unnamed};
ghost use Rattle.files.specs.Inputs.{Within};

use std::env::{Env, FillError};
use std::fs::File;
use std::io::{Error, ErrorKind, Read, Write};
use std::{fs, io};

// Why there is nothing of a file: a line has said why; or the argument that would name it is missing or empty.
#[derive(Clone, Copy, PartialEq, Eq, Debug)]
pub enum Unread {
    Failed,
    Unnamed,
}

// Where a file's name comes from: its own, in the working folder, or an argument.
#[derive(Clone, Copy, PartialEq, Eq, Debug)]
pub enum Source {
    Usual,
    Argument(usize),
}

// What an absent file is: one without bytes, or one that cannot be read.
#[derive(Clone, Copy, PartialEq, Eq, Debug)]
pub enum Absent {
    Empty,
    Failure,
}

// How much of a file is read: as many bytes as there is room for, or the whole file, and nothing where it may be longer than that.
#[derive(Clone, Copy, PartialEq, Eq, Debug)]
pub enum Extent {
    Start,
    Whole,
}

// A file that a program reads: its own name, what it is where it is absent, and how much of it is read.
#[derive(Clone, Copy)]
pub struct Wanted<'a> {
    pub name: &'a [u8],
    pub absent: Absent,
    pub extent: Extent,
}

// A program that runs: its name, which begins each line on standard error, and the line that says how it is called.
#[derive(Clone, Copy)]
pub struct Program<'a> {
    pub rt: &'a HostRuntime,
    pub name: &'a [u8],
    pub usage: &'a [u8],
}

// The longest path that the system takes, with the zero byte after it.
const PATH_BYTES: usize = 4096;

// The system's number for a name that is too long.
const NAME_TOO_LONG: i32 = 36;

// How many arguments there are, the program's own name among them, or five where there are more: no program takes as many.
pub fn argument_count(rt: &HostRuntime) -> usize
    ensures { result ≤ 5 }
{
    let mut first = [0u8; 1];
    for k in 0..5 {
        if let Err(FillError::NotPresent) = rt.arg(k, &mut first) {
            return k;
        }
    }
    5
}

// The system's reason without its number, which stands in brackets after it.
fn reason(text: &str) -> &str {
    match text.find(" (os error ") {
        Some(i) => &text[..i],
        None => text,
    }
}

// Reads until the file ends or buf is full, and says how much was read.
fn read_full(file: &mut File, buf: &mut [u8]) -> io::Result<usize>
    ensures { IfOk result (λ n. n ≤ length buf.new) }
{
    let mut n = 0;
    while n < buf.len() {
        let got = file.read(&mut buf[n..])?;
        if got == 0 {
            break;
        }
        n += got;
    }
    Ok(n)
}

// Opens a file by the bytes of its path, which are text.
fn open(rt: &HostRuntime, path: &[u8]) -> io::Result<File> {
    match str::from_utf8(path) {
        Ok(text) => fs::open(rt, text),
        Err(_) => Err(Error::new(ErrorKind::InvalidInput, "a path that is not UTF-8")),
    }
}

impl Program<'_> {
    // Writes a part of a line to standard error; where that fails too there is nobody left to tell.
    fn tell(&self, part: &[u8]) {
        let _told = self.rt.stderr().write_all(part);
    }

    // A line on standard error: how the program is called. The answer for what was to be read.
    pub fn misuse(&self) -> Result<usize, Unread>
        ensures { result ≡ Err Unnamed }
    {
        self.tell(self.usage);
        Err(Unread::Unnamed)
    }

    // How a line on standard error begins: with the program and with what failed.
    fn begin(&self, what: &[u8]) {
        self.tell(self.name);
        self.tell(b": ");
        self.tell(what);
    }

    // How it ends, and the answer for what was to be read.
    fn end(&self, part: &[u8]) -> Result<usize, Unread>
        ensures { result ≡ Err Failed }
    {
        self.tell(part);
        Err(Unread::Failed)
    }

    // A line on standard error: what failed, and why.
    fn refuse(&self, what: &[u8], why: &str) -> Result<usize, Unread>
        ensures { result ≡ Err Failed }
    {
        self.begin(what);
        self.tell(b": ");
        self.tell(why.as_bytes());
        self.end(b"\n")
    }

    // What failed is refused for the system's reason.
    pub fn complain(&self, what: &[u8], error: Error) -> Result<usize, Unread>
        ensures { result ≡ Err Failed }
    {
        match format!(in self.rt.alloc(); "{error}") {
            Ok(text) => self.refuse(what, reason(text.as_str())),
            Err(_) => self.refuse(what, ""),
        }
    }

    // A file that fills this much room is refused as too long.
    fn complain_of_length(&self, path: &[u8], room: usize) -> Result<usize, Unread>
        ensures { result ≡ Err Failed }
    {
        self.begin(path);
        self.tell(b": longer than ");
        if let Some(most) = room.checked_sub(1) {
            if let Ok(text) = format!(in self.rt.alloc(); "{most}") {
                self.tell(text.as_str().as_bytes());
            }
        }
        self.end(b" bytes\n")
    }

    // The bytes of an open file at the start of buf, as many as it holds. A file that is to be read whole and fills buf may go on, and is
    // not read.
    fn read_open(
        &self,
        path: &[u8],
        file: &mut File,
        extent: Extent,
        buf: &mut [u8],
    ) -> Result<usize, Unread>
        ensures { Within result (length buf.new) }
    {
        match read_full(file, buf) {
            Ok(n) if extent == Extent::Whole && n == buf.len() => self.complain_of_length(path, n),
            Ok(n) => Ok(n),
            Err(error) => self.complain(path, error),
        }
    }

    // The bytes of the file with this path at the start of buf.
    fn read_file(&self, path: &[u8], wanted: Wanted, buf: &mut [u8]) -> Result<usize, Unread>
        ensures { Within result (length buf.new) }
    {
        match open(self.rt, path) {
            Ok(mut file) => self.read_open(path, &mut file, wanted.extent, buf),
            Err(error) if wanted.absent == Absent::Empty && error.kind() == ErrorKind::NotFound =>
                Ok(0),
            Err(error) => self.complain(path, error),
        }
    }

    // The bytes of the file that argument i names. A path that is too long is not cut, since the cut one would name another file, and
    // an empty path names none.
    fn read_argument(&self, i: usize, wanted: Wanted, buf: &mut [u8]) -> Result<usize, Unread>
        ensures { Within result (length buf.new) }
    {
        let mut path = [0u8; PATH_BYTES];
        match self.rt.arg(i, &mut path) {
            Ok(0) | Err(FillError::NotPresent) => self.misuse(),
            Ok(n) => self.read_file(&path[..n], wanted, buf),
            Err(FillError::TooLong) => self.complain(
                wanted.name,
                Error::from_raw_os_error(NAME_TOO_LONG),
            ),
        }
    }

    // The bytes of a file at the start of buf, and how many they are: of the one that an argument names, or of the one with its own name.
    pub fn read_input(
        &self,
        source: Source,
        wanted: Wanted,
        buf: &mut [u8],
    ) -> Result<usize, Unread>
        ensures { Within result (length buf.new) }
    {
        match source {
            Source::Argument(i) => self.read_argument(i, wanted, buf),
            Source::Usual => self.read_file(wanted.name, wanted, buf),
        }
    }

    // Writes a text to standard output in one piece, and says how many bytes it has.
    pub fn show(&self, text: &[u8]) -> Result<usize, Unread>
        ensures { MatchResult result (λ n. n ≡ length text.now) (λ e. e ≡ Failed) }
    {
        match self.rt.stdout().write_all(text) {
            Ok(()) => Ok(text.len()),
            Err(error) => self.complain(b"standard output", error),
        }
    }
}
