// Writer of a cartridge file.
#![tactic(auto)]

ghost use Rattle.std.specs.Prelude.{◌≡◌, ◌++◌, ◌+◌, ◌*◌, ◌≤◌, length, Decides, IfOk};
ghost use Rattle.code.specs.Files.{bytes_of, entry_blocks, entry_size, directory_size, most_entries, most_bytes, HasRoom, cut, directory, file_of};
ghost use Rattle.code.specs.Numbers.{Passed};
ghost use Rattle.code.specs.Calls.{entry_checks, all_entries_checks};
ghost use Rattle.code.specs.Promises.{FileWritten};
ghost use Rattle.code.specs.Answers.{done_of, written_of};
ghost use Rattle.checks.specs.First.{FirstAnswer};

use code::Refusal;

// ---- Checks

// The size of the entry at the start of these bytes, or the first check that it does not pass.
fn check_entry(left: &[u8]) -> Result<usize, Refusal>
    ensures first { FirstAnswer (entry_checks left.now) (done_of result) }
    ensures size { IfOk result (λ size. size ≡ entry_size (entry_blocks left.now)) }
{
    if left.len() < 6 {
        return Err(Refusal::InputLength);
    }
    let n = usize::from(files::two(left, 4));
    if 256 < n {
        return Err(Refusal::BlockCount);
    }
    let size = files::entry_size(left);
    if left.len() < size {
        return Err(Refusal::InputLength);
    }
    if packed::padding_set(&left[6..size], n) {
        return Err(Refusal::Padding);
    }
    Ok(size)
}

// Entry by entry; it ends with the bytes, whatever the number of entries.
fn check_entries(count: u32, entries: &[u8]) -> Result<(), Refusal>
    ensures { FirstAnswer (all_entries_checks count entries.now) (done_of result) }
{
    let mut left = entries;
    for _ in 0..count {
        let size = check_entry(left)?;
        left = &left[size..];
    }
    if !left.is_empty() {
        return Err(Refusal::InputLength);
    }
    Ok(())
}

// Does a file with this number of entries, and of `bytes` bytes in them, fit the file's limits and the output?
fn fits(count: u32, bytes: usize, room: usize) -> bool
    ensures { Decides result (HasRoom count (directory_size count + bytes) room) }
{
    let directory = files::directory_size(count);
    count <= 64 && bytes <= 65536 && directory + bytes <= 65536 && directory + bytes <= room
}

// ---- The file

// Writes an entry's offset and length, most significant byte first.
fn put_place(place: &mut [u8], offset: u32, size: u32)
    requires { length place.old ≡ 8 }
    ensures { place.new ≡ bytes_of 4 offset ++ bytes_of 4 size }
{
    place[..4].copy_from_slice(&offset.to_be_bytes());
    place[4..].copy_from_slice(&size.to_be_bytes());
}

// Writes the offsets and lengths of entries that follow the directory without gaps.
fn put_directory(places: &mut [u8], count: u32, entries: &[u8])
    requires count_le_most_entries { count ≤ most_entries }
    requires entries_len_bound { length entries.now ≤ most_bytes }
    requires places_len { length places.old ≡ 8 * count }
    requires passed { Passed (all_entries_checks count entries.now) }
    ensures { places.new ≡ directory (directory_size count) (cut count entries.now) }
{
    let mut offset = files::directory_size(count);
    let mut left = entries;
    for i in 0..count as usize {
        let size = files::entry_size(left);
        let at = 8 * i;
        let end = at + 8;
        put_place(&mut places[at..end], offset as u32, size as u32);
        offset += size;
        left = &left[size..];
    }
}

// Copies a stretch to another of its length, a part at a time by way of a room: between a lent stretch and a room of its own a copy
// compiles to a move of memory, which it does not between two lent ones. Without the room a file of 64 records of 16 blocks took 2.7 µs to
// write, and 1.8 so.
fn copy_long(out: &mut [u8], source: &[u8])
    requires { length source.now ≡ length out.old }
    ensures { out.new ≡ source.now }
{
    let mut room = [0; 4096];
    let parts = source.len() / 4096;
    for k in 0..parts {
        let from = 4096 * k;
        let to = from + 4096;
        room.copy_from_slice(&source[from..to]);
        out[from..to].copy_from_slice(&room);
    }
    let from = 4096 * parts;
    out[from..].copy_from_slice(&source[from..]);
}

// Writes the file of some entries, into an output of its size.
fn put_file(out: &mut [u8], count: u32, entries: &[u8])
    requires count_le_most_entries { count ≤ most_entries }
    requires entries_len_bound { length entries.now ≤ most_bytes }
    requires out_len { length out.old ≡ directory_size count + length entries.now }
    requires passed { Passed (all_entries_checks count entries.now) }
    ensures { out.new ≡ file_of (cut count entries.now) }
{
    let first = files::directory_size(count);
    out[..2].copy_from_slice(&(count as u16).to_be_bytes());
    put_directory(&mut out[2..first], count, entries);
    copy_long(&mut out[first..], entries);
}

// ---- The call

// Writer: a file of these entries goes to the start of the output.
pub fn write(count: u32, entries: &[u8], out: &mut [u8]) -> Result<u32, Refusal>
    ensures { FileWritten count entries.now out.old (written_of result) out.new }
{
    check_entries(count, entries)?;
    if !fits(count, entries.len(), out.len()) {
        return Err(Refusal::Room);
    }
    let size = files::directory_size(count) + entries.len();
    put_file(&mut out[..size], count, entries);
    Ok(size as u32)
}
