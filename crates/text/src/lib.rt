// Plain text by lines and words: what the desk programs read. Words stand between blanks; `#` begins a comment, which goes to
// the end of the line.
#![tactic(auto)]

ghost use Rattle.std.specs.Prelude.{◌≡◌, ◌-◌, length};
ghost use Rattle.text.specs.Words.{byte_at, seek_from, is_blank, is_past, line_end, word_from, word_to};
ghost use Rattle.text.specs.Words.{with_digit, number_from, is_named, kind_of, name_of, word_of};
ghost use Rattle.text.specs.Words.{next_word, next_end, line_of, first_line, next_line, is_stray, is_torn, mark_of};

use edition::Edition;

// What a word of a line is.
#[derive(Clone, Copy, PartialEq, Eq)]
pub enum Word {
    // A number up to `Word::MOST`.
    Number(u16),
    // The names.
    Root,
    Depth,
    Link,
    Node,
    Whole,
    Up,
    Down,
    // Neither a number nor a name.
    Other,
    // No word: the line has ended.
    End,
}

impl Word {
    // The largest number.
    pub const MOST: u16 = 0xffff;
}

// A word of a line, and the place where it ends.
#[derive(Clone, Copy)]
struct Found {
    word: Word,
    to: usize,
}

// The words of a line, in their order; `rest` is the one behind the longest line that has a meaning.
#[derive(Clone, Copy)]
pub struct Line {
    pub kind: Word,
    pub a: Word,
    pub b: Word,
    pub c: Word,
    pub d: Word,
    pub e: Word,
    pub rest: Word,
}

// A line of a text: the place where it begins, and its number, from 1 on.
#[derive(Clone, Copy)]
pub struct Cursor {
    pub at: usize,
    pub number: usize,
}

// The words of a line, and the line behind it.
#[derive(Clone, Copy)]
pub struct Step {
    pub line: Line,
    pub next: Cursor,
}

// The byte at a place; the end of a line past the text.
#[tactic(auto, unfolding(crate::specs::Words::byte_at))]
fn byte_at(text: &[u8], i: usize) -> u8
    ensures { result ≡ byte_at text.now i }
{
    text.get(i).copied().unwrap_or(b'\n')
}

// Where the line that holds a place ends: at the next end of line, or at the text's end.
#[tactic(auto, using(crate::proofs::Scanning::scans), unfolding(crate::specs::Words::line_end))]
fn line_end(text: &[u8], at: usize) -> usize
    ensures { result ≡ line_end text.now at }
{
    for i in at..text.len() {
        if byte_at(text, i) == b'\n' {
            return i;
        }
    }
    at.max(text.len())
}

// Whether a byte stands between words.
#[tactic(auto, unfolding(crate::specs::Words::is_blank))]
fn is_blank(byte: u8) -> bool
    ensures { result ≡ is_blank byte }
{
    byte == b' ' || byte == b'\t' || byte == b'\r'
}

// Whether a byte ends a word: a blank, or the begin of a comment.
#[tactic(auto, unfolding(crate::specs::Words::is_past))]
fn is_past(byte: u8) -> bool
    ensures { result ≡ is_past byte }
{
    byte == b'#' || is_blank(byte)
}

// Where the next word begins, or the line's end where there is none.
#[tactic(auto, using(crate::proofs::Scanning::scans), unfolding(crate::specs::Words::word_from))]
fn word_from(text: &[u8], at: usize, end: usize) -> usize
    ensures { result ≡ word_from text.now at end }
{
    for i in at..end {
        if !is_blank(byte_at(text, i)) {
            return i;
        }
    }
    at.max(end)
}

// Where the word that begins at a place ends.
#[tactic(auto, using(crate::proofs::Scanning::scans), unfolding(crate::specs::Words::word_to))]
fn word_to(text: &[u8], from: usize, end: usize) -> usize
    ensures { result ≡ word_to text.now from end }
{
    for i in from..end {
        if is_past(byte_at(text, i)) {
            return i;
        }
    }
    from.max(end)
}

// A number with one more digit; no number where that is none or the number gets too large.
#[tactic(auto, unfolding(crate::specs::Words::with_digit))]
fn with_digit(value: u16, byte: u8) -> Option<u16>
    ensures { result ≡ with_digit value byte }
{
    if byte < b'0' || b'9' < byte {
        return None;
    }
    let longer = value as u32 * 10 + (byte - b'0') as u32;
    if longer > Word::MOST as u32 {
        return None;
    }
    Some(longer as u16)
}

// The number that the bytes from one place to before another spell, if they do.
#[tactic(auto, using(crate::proofs::Scanning::spelling))]
#[inline(never)]
fn number_of(text: &[u8], from: usize, to: usize) -> Option<u16>
    ensures { result ≡ number_from text.now 0 from (to - from) }
{
    let mut value = 0;
    for i in from..to {
        value = with_digit(value, byte_at(text, i))?;
    }
    Some(value)
}

// Whether the bytes from one place to before another are the name.
#[tactic(auto, using(crate::proofs::Naming::named_is, crate::proofs::Naming::not_named))]
fn is_named(text: &[u8], from: usize, to: usize, name: &[u8]) -> bool
    ensures { result ≡ is_named text.now from to name.now }
{
    match text.get(from..to) {
        Some(word) => word == name,
        None => false,
    }
}

// The name among those that begin a line.
#[tactic(auto, unfolding(crate::specs::Words::kind_of))]
fn kind_of(text: &[u8], from: usize, to: usize) -> Word
    ensures { result ≡ kind_of text.now from to }
{
    if is_named(text, from, to, b"link") {
        return Word::Link;
    }
    if is_named(text, from, to, b"node") {
        return Word::Node;
    }
    if is_named(text, from, to, b"root") {
        return Word::Root;
    }
    if is_named(text, from, to, b"depth") {
        return Word::Depth;
    }
    Word::Other
}

// The name, among all of them.
#[tactic(auto, unfolding(crate::specs::Words::name_of))]
#[inline(never)]
fn name_of(text: &[u8], from: usize, to: usize) -> Word
    ensures { result ≡ name_of text.now from to }
{
    if is_named(text, from, to, b"up") {
        return Word::Up;
    }
    if is_named(text, from, to, b"down") {
        return Word::Down;
    }
    if is_named(text, from, to, b"whole") {
        return Word::Whole;
    }
    kind_of(text, from, to)
}

// The word from one place to before another.
#[tactic(auto, using(crate::proofs::Wording::worded))]
fn word_of(text: &[u8], from: usize, to: usize) -> Word
    ensures { result ≡ word_of text.now from to }
{
    if to <= from {
        return Word::End;
    }
    match number_of(text, from, to) {
        Some(number) => Word::Number(number),
        None => name_of(text, from, to),
    }
}

// The next word of a line from a place on. It is inlined, and what spells a word is not, so that a line without words costs little.
#[tactic(auto, unfolding(crate::specs::Words::next_word, crate::specs::Words::next_end))]
#[inline(always)]
fn next(text: &[u8], at: usize, end: usize) -> Found
    ensures { (result.word ≡ next_word text.now end at) × (result.to ≡ next_end text.now end at) }
{
    let from = word_from(text, at, end);
    let to = word_to(text, from, end);
    Found {
        word: word_of(text, from, to),
        to,
    }
}

// The words of the line from a place to its end.
#[tactic(auto, using(crate::proofs::Wording::line_is))]
fn line_of(text: &[u8], at: usize, end: usize) -> Line
    ensures { result ≡ line_of text.now at end }
{
    let kind = next(text, at, end);
    let a = next(text, kind.to, end);
    let b = next(text, a.to, end);
    let c = next(text, b.to, end);
    let d = next(text, c.to, end);
    let e = next(text, d.to, end);
    let rest = next(text, e.to, end);
    Line {
        kind: kind.word,
        a: a.word,
        b: b.word,
        c: c.word,
        d: d.word,
        e: e.word,
        rest: rest.word,
    }
}

// Whether the byte at a place is a carriage return with no line feed behind it.
#[tactic(auto, using(crate::proofs::Scanning::other_within), unfolding(crate::specs::Words::is_stray))]
fn is_stray(text: &[u8], i: usize) -> bool
    ensures { result ≡ is_stray text.now i }
{
    byte_at(text, i) == b'\r' && (i + 1 == text.len() || byte_at(text, i + 1) != b'\n')
}

// The first place of such a byte before the line's end, or the line's end where there is none.
#[tactic(auto, using(crate::proofs::Scanning::scans))]
fn stray_from(text: &[u8], at: usize, end: usize) -> usize
    ensures { result ≡ seek_from (is_stray text.now) at (end - at) }
{
    for i in at..end {
        if is_stray(text, i) {
            return i;
        }
    }
    at.max(end)
}

impl Cursor {
    // The first line, which begins behind a byte order mark.
    #[tactic(auto, unfolding(crate::specs::Words::first_line))]
    pub fn begin(text: &[u8]) -> Cursor
        ensures { result ≡ first_line text.now }
    {
        if is_named(text, 0, 3, b"\xef\xbb\xbf") {
            return Cursor { at: 3, number: 1 };
        }
        Cursor { at: 0, number: 1 }
    }

    // Whether the line has a carriage return with no line feed behind it. Such a text is of another system, which may have meant
    // it for the end of a line, or was cut off.
    #[tactic(auto, unfolding(crate::specs::Words::is_torn))]
    pub fn is_torn(self, text: &[u8]) -> bool
        ensures { result ≡ is_torn text.now self.at }
    {
        let end = line_end(text, self.at);
        stray_from(text, self.at, end) < end
    }

    // What the line says, and the line behind it, which begins past the text where this is the last. The numbers go no further
    // than a text of that length has lines.
    #[tactic(auto, unfolding(crate::specs::Words::next_line))]
    pub fn next_line(self, text: &[u8]) -> Step
        ensures { result ≡ next_line text.now self }
    {
        let end = line_end(text, self.at);
        Step {
            line: line_of(text, self.at, end),
            next: Cursor {
                at: end.min(text.len()) + 1,
                number: self.number.min(text.len()) + 1,
            },
        }
    }
}

// The service mark that a word of a line names: `up` is in service, any other word withdrawn.
#[tactic(auto, using(crate::proofs::Wording::marked))]
pub fn mark_of(word: Word) -> u16
    ensures { result ≡ mark_of word }
{
    match word {
        Word::Up => Edition::SERVED,
        _ => Edition::WITHDRAWN,
    }
}

// Whether two words are the same.
pub fn is_word(word: &[u8], name: &[u8]) -> bool
    ensures { result ≡ is_named word.now 0 (length word.now) name.now }
{
    is_named(word, 0, word.len(), name)
}
