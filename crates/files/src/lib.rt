// Cartridge files: numbers in bytes, the rules of a file, its number of entries and an entry of it.
#![tactic(auto)]

ghost use Rattle.std.specs.Prelude.{◌≡◌, ◌+◌, ◌*◌, ◌≤◌, length, Decides, MatchOption};
ghost use Rattle.code.specs.Files.{number, entry_blocks, entry_size, Entry, directory_size, entry_offset, entry_length, Cartridge};
ghost use Rattle.code.specs.Answers.{counted_of, stretch_of};
ghost use Rattle.code.specs.Promises.{EntryFound, EntryShown, FileCounted};
ghost use Rattle.files.specs.Steps.{IsEnd, EntryRight};

use code::{Refusal, Span};

// ---- Numbers

// The two-byte number at a place, most significant byte first.
pub fn two(bytes: &[u8], at: usize) -> u16
    requires { at + 2 ≤ length bytes.now }
    ensures { result ≡ number 2 bytes.now at }
{
    u16::from_be_bytes([bytes[at], bytes[at + 1]])
}

// The four-byte number at a place.
pub fn four(bytes: &[u8], at: usize) -> u32
    requires { at + 4 ≤ length bytes.now }
    ensures { result ≡ number 4 bytes.now at }
{
    u32::from_be_bytes([bytes[at], bytes[at + 1], bytes[at + 2], bytes[at + 3]])
}

// ---- Entries

// The size of the directory of so many entries, the number of entries before it.
pub fn directory_size(count: u32) -> usize
    ensures { result ≡ directory_size count }
{
    2 + 8 * count as usize
}

// The size of the entry with which these bytes begin, by its block count.
pub fn entry_size(bytes: &[u8]) -> usize
    requires { 6 ≤ length bytes.now }
    ensures { result ≡ entry_size (entry_blocks bytes.now) }
{
    6 + 18 * (usize::from(two(bytes, 4)) + 2)
}

// Are these bytes an entry, by count and length?
fn is_entry(bytes: &[u8]) -> bool
    ensures { Decides result (Entry bytes.now) }
{
    6 <= bytes.len() && two(bytes, 4) <= 256 && bytes.len() == entry_size(bytes)
}

// Entry i's place in the file, by the directory.
fn place(file: &[u8], i: usize) -> Span
    requires { 10 + 8 * i ≤ length file.now }
    ensures { result ≡ record { offset = entry_offset file.now i; length = entry_length file.now i } }
{
    let at = 2 + 8 * i;
    Span {
        offset: four(file, at),
        length: four(file, at + 4),
    }
}

// Where entry i ends, and none where it breaks a rule. The directory and the entries before it end at `from`.
fn entry_end(file: &[u8], from: usize, i: usize) -> Option<usize>
    requires { 10 + 8 * i ≤ length file.now }
    ensures { MatchOption result (¬ EntryRight file.now from i) (IsEnd file.now from i) }
{
    let place = place(file, i);
    let offset = place.offset as usize;
    let end = offset + place.length as usize;
    let right = from <= offset && end <= file.len() && is_entry(&file[offset..end]);
    right.then_some(end)
}

// ---- The rules

// Does a file follow the rules?
pub fn is_right(file: &[u8]) -> bool
    ensures { Decides result (Cartridge file.now) }
{
    let size = file.len();
    if size < 2 || 65536 < size {
        return false;
    }
    let count = u32::from(two(file, 0));
    let directory = directory_size(count);
    if 64 < count || size < directory {
        return false;
    }
    let mut end = directory;
    for i in 0..count as usize {
        let Some(next) = entry_end(file, end, i) else {
            return false;
        };
        end = next;
    }
    true
}

// ---- The calls

// The number of a file's entries.
pub fn count(file: &[u8]) -> Result<u32, Refusal>
    ensures { FileCounted file.now (counted_of result) }
{
    if !is_right(file) {
        return Err(Refusal::File);
    }
    Ok(u32::from(two(file, 0)))
}

// Entry i of a file, as a stretch of it: an empty one where the file has no entry i.
pub fn find(file: &[u8], index: u32) -> Result<Span, Refusal>
    ensures { EntryFound file.now index (stretch_of result) }
{
    if count(file)? <= index {
        return Ok(Span {
            offset: 0,
            length: 0,
        });
    }
    Ok(place(file, index as usize))
}

// Entry i of the caller's own file, or an empty part.
pub fn entry(file: &[u8], index: u32) -> &[u8]
    ensures { EntryShown file.now index result.now }
{
    let Ok(found) = find(file, index) else {
        return &file[..0];
    };
    let start = found.offset as usize;
    let end = start + found.length as usize;
    &file[start..end]
}
