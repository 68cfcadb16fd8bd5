// What the desk programs share: files by name, and what is said on standard error. A function that says why something went
// wrong answers false, which its caller hands up.
#![tactic(auto)]

ghost use Rattle.std.specs.Prelude.{◌≡◌, true, false, ◌+◌, ◌≤◌, leb, length};
ghost use Rattle.desk.specs.Longest.{longest_file, longest_text};

use edition::{Edition, Refusal, Why};
use std::env::FillError;
use std::fmt::Write as Text;
use std::fs::{File, OpenFile};
use std::io::{Error, ErrorKind, Print, Read, Result, Write};
use std::rt::{Env, Files};
use std::{fmt, fs};

// The number of standard error.
const STDERR: i32 = 2;

// The longest name of a file, the longest file that is read or written, and the longest text, in bytes.
#[derive(Clone, Copy)]
pub struct Desk {
    pub name: usize,
}

impl Desk {
    pub const NAME: usize = 4000;

    pub const FILE: usize = Edition::FILE_BYTES;

    pub const TEXT: usize = 524288;
}

// Says something on standard error.
fn say(text: &[u8]) {
    io::write_all(STDERR, text);
}

// Says a number on standard error.
fn say_number(n: u64) {
    io::print_decimal(STDERR, n);
}

// Says how a program is called.
pub fn usage(text: &[u8]) -> bool
    ensures { result ≡ false }
{
    say(b"usage: ");
    say(text);
    say(b"\n");
    false
}

// Says something about a file: `NAME: TEXT`.
pub fn complain(name: &[u8], text: &[u8]) -> bool
    ensures { result ≡ false }
{
    say(name);
    say(b": ");
    say(text);
    say(b"\n");
    false
}

// Says a file's name and a line: `NAME:LINE: `.
fn say_place(name: &[u8], line: usize) {
    say(name);
    say(b":");
    say_number(line as u64);
    say(b": ");
}

// Says what a line should have had: `NAME:LINE: expected TEXT`.
pub fn expected(name: &[u8], line: usize, text: &[u8]) -> bool
    ensures { result ≡ false }
{
    say_place(name, line);
    say(b"expected ");
    say(text);
    say(b"\n");
    false
}

// Says that a line has a carriage return with no line feed behind it.
pub fn torn(name: &[u8], line: usize) -> bool
    ensures { result ≡ false }
{
    expected(name, line, b"a line feed behind each carriage return")
}

// The same as `expected` for text that ends with a number.
pub fn expected_number(name: &[u8], line: usize, text: &[u8], n: usize) -> bool
    ensures { result ≡ false }
{
    say_place(name, line);
    say(b"expected ");
    say(text);
    say_number(n as u64);
    say(b"\n");
    false
}

// Says `refused N P` and ends the line.
fn say_refusal(refusal: Refusal) {
    let why = refusal.why;
    say(b"refused ");
    say_number(edition::number(why) as u64);
    say(b" ");
    say_number(refusal.place as u64);
    say(b"\n");
}

// Says why a file is refused: `NAME: refused N P`.
pub fn refused(name: &[u8], refusal: Refusal) -> bool
    ensures { result ≡ false }
{
    say(name);
    say(b": ");
    say_refusal(refusal);
    false
}

// Says why a line is refused: `NAME:LINE: refused N P`.
pub fn refused_at(name: &[u8], line: usize, refusal: Refusal) -> bool
    ensures { result ≡ false }
{
    say_place(name, line);
    say_refusal(refusal);
    false
}

// Whether a file of so many bytes is within the longest; where it is not, refusal 20 is said.
pub fn file_fits(name: &[u8], size: usize) -> bool
    ensures { result ≡ leb size longest_file }
{
    if size <= Desk::FILE {
        return true;
    }
    refused(
        name,
        Refusal {
            why: Why::BadLength,
            place: 0,
        },
    )
}

// Says that a text is longer than the longest.
fn text_too_long(name: &[u8]) -> bool
    ensures { result ≡ false }
{
    say(name);
    say(b": the text is too long: more than ");
    say_number(Desk::TEXT as u64);
    say(b" bytes\n");
    false
}

// Whether a text is within the longest; where it is not, that is said.
pub fn text_fits(name: &[u8], text: &[u8]) -> bool
    ensures { result ≡ leb (length text.now) longest_text }
{
    if text.len() <= Desk::TEXT {
        return true;
    }
    text_too_long(name)
}

// Says that a word of the command is no name.
fn no_name(word: &[u8]) -> bool
    ensures { result ≡ false }
{
    say(word);
    say(b": expected a name of 1 to ");
    say_number(Desk::NAME as u64);
    say(b" bytes\n");
    false
}

// Whether a word of the command, by the length that `arg` answered, is a name: it answers 0 of one that is empty or too long.
// Where it is none, that is said of the word as the usage calls it.
pub fn is_name(word: &[u8], size: usize) -> bool
    ensures { result ≡ leb 1 size }
{
    if 1 <= size {
        return true;
    }
    no_name(word)
}

// How many words the command has, the program's own name among them.
pub fn arg_count<R: Env>(rt: &R) -> usize {
    let mut room = [0u8; 1];
    for i in 0..usize::MAX {
        if let Err(FillError::NotPresent) = rt.arg(i, &mut room) {
            return i;
        }
    }
    usize::MAX
}

// Puts word i of the command at the start of the room and answers its length, or 0 where there is none or it does not fit.
pub fn arg<R: Env>(rt: &R, i: usize, room: &mut [u8]) -> usize
    ensures { result ≤ length room.new }
{
    match rt.arg(i, room) {
        Ok(size) => size,
        Err(_) => 0,
    }
}

// The text of an error, as far as there is room for it.
#[derive(Drop)]
struct Reason {
    room: [u8; 256],
    size: usize,
}

impl fmt::Write for Reason {
    fn write_str(&mut self, s: &str) -> fmt::Result {
        self.size = append(&mut self.room, self.size, s.as_bytes());
        Ok(())
    }
}

// The first bytes of a text, or all of it where it has fewer.
fn first(text: &[u8], size: usize) -> &[u8] {
    &text[..size.min(text.len())]
}

// How many bytes of an error's text stand before its number, which the library puts behind what the system says of it.
fn unnumbered(text: &[u8]) -> usize {
    let number: &[u8] = b" (os error ";
    text.windows(number.len())
        .position(|part| part == number)
        .unwrap_or(text.len())
}

// Says why something failed, as the system says it: `NAME: TEXT`.
fn fail(name: &[u8], error: Error) {
    let mut reason = Reason {
        room: [0; 256],
        size: 0,
    };
    let written = write!(reason, "{error}");
    if written.is_err() {
        complain(name, b"it failed");
        return;
    }
    let text = first(&reason.room, reason.size);
    complain(name, first(text, unnumbered(text)));
}

// A name as the library takes it, which is text.
fn path_of(name: &[u8]) -> Result<&str> {
    match str::from_utf8(name) {
        Ok(path) => Ok(path),
        Err(_) => Err(Error::new(ErrorKind::InvalidInput, "the name is not UTF-8")),
    }
}

// Opens a file, or a folder, for reading.
fn open<R: Files>(rt: &R, name: &[u8]) -> Result<R::File> {
    File::open(rt, path_of(name)?)
}

// Makes a file that is not there yet, and opens it for writing.
fn create<R: Files>(rt: &R, name: &[u8]) -> Result<R::File> {
    File::options()
        .write(true)
        .create_new(true)
        .open(rt, path_of(name)?)
}

// Reads until the file ends or the room is full, and answers how many bytes that is, or why a read failed.
fn read_on<F: Read>(file: &mut F, room: &mut [u8]) -> Result<usize> {
    let mut done = 0;
    while done < room.len() {
        let more = file.read(&mut room[done..])?;
        if more == 0 {
            break;
        }
        done += more;
    }
    Ok(done)
}

// Room for the longest text and one byte more, by which a longer one is seen. The `ensures` gives only the length, which is what
// lending the room as a slice needs.
pub fn text_room() -> [u8; Desk::TEXT + 1]
    ensures { length result ≡ longest_text + 1 }
{
    [0; Desk::TEXT + 1]
}

// Opens the file and reads it, or as much of it as the room holds.
fn read_all<R: Files>(rt: &R, name: &[u8], room: &mut [u8]) -> Result<usize> {
    let mut file = open(rt, name)?;
    read_on(&mut file, room)
}

// Reads the file, or as much of it as the room holds, and answers how many bytes that is; none where it cannot be opened, or not
// be read to its end, which is said.
pub fn read<R: Files>(rt: &R, name: &[u8], room: &mut [u8]) -> Option<usize>
    ensures { length room.new ≡ length room.old }
{
    match read_all(rt, name, room) {
        Ok(size) => Some(size),
        Err(error) => {
            fail(name, error);
            None
        }
    }
}

// Prints the first bytes of a text, as many as `size`, on standard output and answers whether it did, which it does of no more
// bytes than the text has. Where they cannot all be written, that is said.
pub fn print<R: Print>(rt: &R, text: &[u8], size: usize) -> bool
    ensures { result ≡ true → size ≤ length text.now }
{
    if text.len() < size {
        return complain(b"standard output", b"there are fewer bytes than its length");
    }
    match rt.write_all(&text[0..size]) {
        Ok(()) => true,
        Err(error) => {
            fail(b"standard output", error);
            false
        }
    }
}

// Copies a text into the room from a place on, where it fits, and answers the place behind it.
fn append(room: &mut [u8], at: usize, text: &[u8]) -> usize
    ensures { at ≤ length room.old → result ≤ length room.new }
{
    if room.len() < at || room.len() - at < text.len() {
        return at;
    }
    room[at..at + text.len()].copy_from_slice(text);
    at + text.len()
}

// Takes a file's name away.
fn unlink<R: Files>(rt: &R, part: &[u8]) -> Result<()> {
    fs::remove_file(rt, path_of(part)?)
}

// Removes a file that gets no name; where it stays, that is said.
fn remove<R: Files>(rt: &R, part: &[u8]) {
    if unlink(rt, part).is_err() {
        complain(part, b"it could not be removed");
    }
}

// Writes all of a file and waits until it is on the disk.
fn write_synced<F: Write + OpenFile>(file: &mut F, bytes: &[u8]) -> Result<()> {
    file.write_all(bytes)?;
    file.sync_all()
}

// Writes all of a new file, waits until it is on the disk and closes it.
fn write_closed<F: Write + OpenFile + Drop>(file: F, bytes: &[u8]) -> Result<()> {
    let mut open = file;
    write_synced(&mut open, bytes)
}

// Writes all of a new file and waits until it is on the disk; where that fails, it is said and the file is removed.
fn fill_new<R: Files>(rt: &R, file: R::File, part: &[u8], bytes: &[u8]) -> bool {
    match write_closed(file, bytes) {
        Ok(()) => true,
        Err(error) => {
            fail(part, error);
            remove(rt, part);
            false
        }
    }
}

// Looks for what stands under a name, and does not follow its last part: where there is nothing it fails as NotFound, where
// there is something that is no link as InvalidInput, and where there is a link to a name that is no text as InvalidFilename.
fn look<R: Files + Alloc>(rt: &R, name: &[u8]) -> Result<()> {
    fs::read_link(rt, path_of(name)?)?;
    Ok(())
}

// Whether nothing stands under a name, no link that leads nowhere either; where something does, or that cannot be seen, it is
// said.
fn is_free<R: Files + Alloc>(rt: &R, name: &[u8]) -> bool {
    if let Err(error) = look(rt, name) {
        match error.kind() {
            ErrorKind::NotFound => return true,
            ErrorKind::InvalidInput | ErrorKind::InvalidFilename => {}
            _ => {
                fail(name, error);
                return false;
            }
        }
    }
    complain(name, b"there is a file of this name")
}

// Opens a folder and waits until it is on the disk.
fn sync_open<R: Files>(rt: &R, folder: &[u8]) -> Result<()> {
    open(rt, folder)?.sync_all()
}

// Waits until a folder is on the disk, and answers whether it is.
fn sync_folder<R: Files>(rt: &R, folder: &[u8]) -> bool {
    sync_open(rt, folder).is_ok()
}

// The same for the folder in which a name stands: up to its last `/`, or the one that is worked in where it has none.
fn sync_name<R: Files>(rt: &R, name: &[u8]) -> bool {
    match name.iter().rposition(|byte| *byte == b'/') {
        Some(i) => sync_folder(rt, &name[..=i]),
        None => sync_folder(rt, b"."),
    }
}

// Gives a file another name.
fn rename<R: Files>(rt: &R, part: &[u8], name: &[u8]) -> Result<()> {
    fs::rename(rt, path_of(part)?, path_of(name)?)
}

// Gives the file its name and waits until that is on the disk. Where it gets no name, that is said and the file is removed.
fn name_new<R: Files>(rt: &R, part: &[u8], name: &[u8]) -> bool {
    if let Err(error) = rename(rt, part, name) {
        fail(name, error);
        remove(rt, part);
        return false;
    }
    if sync_name(rt, name) {
        return true;
    }
    complain(name, b"it is made, but its folder could not be synced")
}

// Gives the file its name once the first bytes of `out` are printed; where they are not, it is removed.
fn print_and_name<R: Files + Print>(
    rt: &R,
    part: &[u8],
    name: &[u8],
    out: &[u8],
    waits: usize,
) -> bool {
    if print(rt, out, waits) {
        return name_new(rt, part, name);
    }
    remove(rt, part);
    false
}

// Makes the file `part` of these bytes and gives it its name, which is looked for once `part` is there: no other run for this
// name goes on then.
fn make<R: Files + Print + Alloc>(
    rt: &R,
    part: &[u8],
    name: &[u8],
    bytes: &[u8],
    out: &[u8],
    waits: usize,
) -> bool {
    match create(rt, part) {
        Ok(file) => {
            if !is_free(rt, name) {
                drop(file);
                remove(rt, part);
                return false;
            }
            if fill_new(rt, file, part, bytes) {
                return print_and_name(rt, part, name, out, waits);
            }
            false
        }
        Err(error) => {
            fail(part, error);
            false
        }
    }
}

// Makes a new file of these bytes and answers whether it did: first under its name with `.part` behind it, then by a rename.
fn write_bytes<R: Files + Print + Alloc>(
    rt: &R,
    name: &[u8],
    bytes: &[u8],
    out: &[u8],
    waits: usize,
) -> bool {
    if Desk::NAME < name.len() {
        return complain(name, b"the name is too long");
    }
    let mut room = [0u8; Desk::NAME + 5];
    let named = append(&mut room, 0, name);
    let ended = append(&mut room, named, b".part");
    make(rt, &room[..ended], name, bytes, out, waits)
}

// Makes a new file of the first bytes of a row, as many as `size`, and answers whether it did, which it does of no more bytes
// than the row has. No file of the name is ever half written; whatever stands under the name stays, and it is said. The first
// bytes of `out`, as many as `waits`, are printed before the file gets its name: where that fails there is no file.
pub fn write_new<R: Files + Print + Alloc>(
    rt: &R,
    name: &[u8],
    row: &[u8],
    size: usize,
    out: &[u8],
    waits: usize,
) -> bool
    ensures { result ≡ true → size ≤ length row.now }
{
    if row.len() < size {
        return complain(name, b"there are fewer bytes than its length");
    }
    write_bytes(rt, name, &row[0..size], out, waits)
}
