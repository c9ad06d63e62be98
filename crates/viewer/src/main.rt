// Runs the two calls that hand over a part of what they are lent, which no C program can call. Of the track view a line has a block
// count, an image's length, a track number, and the part that is handed over for them; cell i of the image is the letter i % 64 of a
// row of 64, so that a part tells where it begins. Of the reader of a cartridge file a line has the file's length, an index, the
// length of the part and the part.
#![tactic(auto)]

use std::io;

// Asks for one track.
fn ask(rt: &impl Print, blocks: u32, image: &[u8], g: u32) -> io::Result<()> {
    print!(rt; "{blocks} {} {g} ", image.len())?;
    rt.write_all(view::view(blocks, image, g))?;
    println!(rt)
}

// Asks for every track, and for the one past them.
fn ask_all(rt: &impl Print, blocks: u32, image: &[u8]) -> io::Result<()> {
    for g in 0..19 {
        ask(rt, blocks, image, g)?;
    }
    Ok(())
}

fn fill(image: &mut [u8]) {
    for (i, cell) in image.iter_mut().enumerate() {
        *cell = b'0' + (i % 64) as u8;
    }
}

// The first n cells.
fn first(image: &[u8], n: usize) -> &[u8] {
    &image[..n.min(image.len())]
}

fn run(rt: &impl Print, image: &[u8]) -> io::Result<()> {
    // One block: every track, and two that there are not.
    ask_all(rt, 1, first(image, 414))?;
    ask(rt, 1, first(image, 414), 4294967295)?;
    // A cell less, a cell more, no cell.
    ask(rt, 1, first(image, 413), 0)?;
    ask(rt, 1, first(image, 415), 0)?;
    ask(rt, 1, first(image, 0), 0)?;
    // No blocks: the same.
    ask_all(rt, 0, first(image, 270))?;
    ask(rt, 0, first(image, 270), 4294967295)?;
    ask(rt, 0, first(image, 269), 0)?;
    ask(rt, 0, first(image, 271), 0)?;
    ask(rt, 0, first(image, 0), 0)?;
    // Other counts, each with the length that is right for it.
    ask(rt, 2, first(image, 558), 17)?;
    ask(rt, 256, first(image, 37134), 0)?;
    ask(rt, 256, first(image, 37134), 17)?;
    ask(rt, 257, image, 0)
}

// Asks for one entry.
fn ask_entry(rt: &impl Print, file: &[u8], index: u32) -> io::Result<()> {
    let part = files::entry(file, index);
    print!(rt; "{} {index} {} ", file.len(), part.len())?;
    rt.write_all(part)?;
    println!(rt)
}

// A file of two entries, of no blocks and of one, two bytes before the second and one behind it: each entry, and two that there are
// not. Then a file of no entries, one that is cut, and no file.
fn run_file(rt: &impl Print, file: &[u8]) -> io::Result<()> {
    ask_entry(rt, file, 0)?;
    ask_entry(rt, file, 1)?;
    ask_entry(rt, file, 2)?;
    ask_entry(rt, file, 4294967295)?;
    ask_entry(rt, b"\0\0", 0)?;
    ask_entry(rt, first(file, 121), 0)?;
    ask_entry(rt, first(file, 0), 0)
}

fn main(rt: HostRuntime) -> io::Result<()> {
    let mut image = [0u8; 37278];
    fill(&mut image);
    run(&rt, &image)?;
    run_file(
        &rt,
        b"\0\x02\0\0\0\x12\0\0\0\x2a\0\0\0\x3e\0\0\0\x3ckey0\0\0ABCDEFGHIJKLMNOPQRSTUVWXYZABCDEFGHIJ..key1\0\x01abcdefghijklmnopqrstuvwxyzabcdefghijklmnopqrstuvwxyzab.",
    )
}
