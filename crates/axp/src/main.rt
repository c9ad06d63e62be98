// axp: repairs and traces one image that is read from standard input. Tracing has document 01's table: ceiling 2.
#![tactic(auto)]

ghost use Rattle.std.specs.Prelude.{◌<◌, ◌≤◌, length, IfOk};

use code::{Answer, Refusal};
use std::io;
use std::io::Read;

// ---- Output

// A line: 0, changed mask and changed cells, or number, detail and 0.
fn line(rt: &impl Print, answer: Result<Answer, Refusal>) -> io::Result<()> {
    match answer {
        Ok(r) => println!(rt; " 0 {} {}", r.mask, r.cells),
        Err(e) => println!(rt; " {} {} 0", e.number(), e.detail()),
    }
}

// ---- Input

// Reads until the buffer is full or the input ends. The result is how many bytes were put at the buffer's start.
fn read_full(from: &mut impl Read, buffer: &mut [u8]) -> io::Result<usize>
    ensures { IfOk result (λ n. n ≤ length buffer.new) }
{
    // A `while`: each read says how far the next is on, and the library reads to the input's end into a heap's buffer only.
    let mut n = 0;
    while n < buffer.len() {
        let more = from.read(&mut buffer[n..])?;
        if more == 0 {
            return Ok(n);
        }
        n += more;
    }
    Ok(n)
}

fn main(rt: HostRuntime) -> io::Result<()> {
    let mut input = [0u8; 37141];
    let mut out = [0u8; 37134];
    let n = read_full(&mut rt.stdin(), &mut input)?;
    if n < 6 {
        return println!(rt; "axp short");
    }
    let blocks = u32::from(u16::from_be_bytes([input[0], input[1]]));
    let flags = u32::from_be_bytes([input[2], input[3], input[4], input[5]]);
    println!(rt; "axp {blocks} {flags}")?;
    print!(rt; "repair")?;
    line(&rt, repair::repair(blocks, flags, &input[6..n], &mut out))?;
    print!(rt; "trace")?;
    line(
        &rt,
        trace::trace_within(blocks, flags, 2, &input[6..n], &mut out),
    )
}
