// Files of data/ by their numbers: a name has three digits, a point and the file's kind.
ghost use Rattle.io.specs.Counts.{IsPrefixLen};

use crate::output::show_no_file;
use std::fs::File;
use std::os::fd::AsRawFd;
use std::str::from_utf8;

// The last digit of a number, as a byte of text.
pub fn last_digit(x: u64) -> u8 {
    b'0' + (x % 10) as u8
}

// Opens the file with a name, if that is text and there is such a file.
pub fn open(rt: &HostRuntime, name: &[u8]) -> Option<File> {
    match from_utf8(name) {
        Ok(name) => File::open(rt, name).ok(),
        Err(_) => None,
    }
}

// Opens a field file.
pub fn open_field(rt: &HostRuntime, number: u64) -> Option<File> {
    let name = [
        last_digit(number / 100),
        last_digit(number / 10),
        last_digit(number),
        b'.',
        b'f',
        b'i',
        b'e',
        b'l',
        b'd',
    ];
    open(rt, &name)
}

// Reads a file that was opened, if it could be, and returns how many bytes it has, or how many of them there is space for.
pub fn read(file: Option<File>, space: &mut [u8]) -> usize
    ensures { IsPrefixLen result space.new }
{
    match file {
        Some(file) => io::read_full(file.as_raw_fd(), space),
        None => 0,
    }
}

// The same, and a line that says so if the file could not be opened.
pub fn load(file: Option<File>, space: &mut [u8]) -> usize
    ensures { IsPrefixLen result space.new }
{
    if file.is_none() {
        show_no_file();
    }
    read(file, space)
}
