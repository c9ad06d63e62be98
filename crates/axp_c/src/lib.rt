// The library for C: numbers, byte slices and a table of spans in, a struct of numbers out. include/axp.h declares these calls.
#![tactic(auto)]

ghost use Rattle.std.specs.Prelude.{◌≡◌};
ghost use Rattle.code.specs.Promises.{Encoded, WasRead, Repaired, Traced, TracedWithin, SpansRepaired, WasPacked, WasUnpacked, FileWritten, FileCounted, EntryFound};
ghost use Rattle.code.specs.Spans.{table_of};
ghost use Rattle.code.specs.Answers.{refused_of, result_of, done_of};
ghost use Rattle.code.proofs.Extras.{ExtrasNumbered};
ghost use Rattle.axp_c.specs.Result.{c_result};

use code::{Answer, Counted, Refusal, Span, Stretch, Written};

// AXP_NO_EXTRA.
pub const NO_EXTRA: u32 = 4294967295;

// axp_result. (Its numbers, and the arguments that the calls have in common, are the C interface.)
#[repr(C)]
#[derive(Clone, Copy)]
pub struct AxpResult {
    pub answer: u32,
    pub detail: u32,
    pub mask: u32,
    pub cells: u32,
    pub extra_a: u32,
    pub extra_b: u32,
}

// 0, with no changed cell and no extra.
const NOTHING: AxpResult = AxpResult {
    answer: 0,
    detail: 0,
    mask: 0,
    cells: 0,
    extra_a: NO_EXTRA,
    extra_b: NO_EXTRA,
};

// A refused call, as C has it.
impl From<Refusal> for AxpResult {
    ghost from_gives = { λ e c. c_result c ≡ refused_of e };

    fn from(e: Refusal) -> AxpResult {
        AxpResult {
            answer: e.number(),
            detail: e.detail(),
            ..NOTHING
        }
    }
}

// What repair and tracing answer. An extra's number is a track number, and so not that of none.
impl From<Result<Answer, Refusal>> for AxpResult {
    ghost from_gives = { λ r c. ExtrasNumbered 18 (result_of r) → c_result c ≡ result_of r };

    fn from(answer: Result<Answer, Refusal>) -> AxpResult {
        match answer {
            Ok(r) => AxpResult {
                answer: 0,
                detail: 0,
                mask: r.mask,
                cells: r.cells,
                extra_a: r.a.unwrap_or(NO_EXTRA),
                extra_b: r.b.unwrap_or(NO_EXTRA),
            },
            Err(e) => e.into(),
        }
    }
}

// What the other calls answer.
impl From<Result<(), Refusal>> for AxpResult {
    ghost from_gives = { λ r c. c_result c ≡ done_of r };

    fn from(done: Result<(), Refusal>) -> AxpResult {
        match done {
            Ok(()) => NOTHING,
            Err(e) => e.into(),
        }
    }
}

// Encoder.
#[unsafe(no_mangle)]
pub extern "C" fn axp_encode(blocks: u32, payload: &[u8], out: &mut [u8]) -> AxpResult
    ensures { Encoded blocks payload.now out.old (c_result result) out.new }
{
    codec::encode(blocks, payload, out).into()
}

// Reader.
#[unsafe(no_mangle)]
pub extern "C" fn axp_read(blocks: u32, image: &[u8], out: &mut [u8]) -> AxpResult
    ensures { WasRead blocks image.now out.old (c_result result) out.new }
{
    codec::read(blocks, image, out).into()
}

// Repairer.
#[unsafe(no_mangle)]
pub extern "C" fn axp_repair(blocks: u32, flags: u32, image: &[u8], out: &mut [u8]) -> AxpResult
    ensures { Repaired blocks flags image.now out.old (c_result result) out.new }
{
    repair::repair(blocks, flags, image, out).into()
}

// Tracer.
#[unsafe(no_mangle)]
pub extern "C" fn axp_trace(blocks: u32, flags: u32, image: &[u8], out: &mut [u8]) -> AxpResult
    ensures { Traced blocks flags image.now out.old (c_result result) out.new }
{
    trace::trace(blocks, flags, image, out).into()
}

// Tracer with a ceiling.
#[unsafe(no_mangle)]
pub extern "C" fn axp_trace_within(
    blocks: u32,
    flags: u32,
    ceiling: u32,
    image: &[u8],
    out: &mut [u8],
) -> AxpResult
    ensures { TracedWithin blocks flags ceiling image.now out.old (c_result result) out.new }
{
    trace::trace_within(blocks, flags, ceiling, image, out).into()
}

// Repairer with flags by stretch. C's axp_span is code's Span.
#[unsafe(no_mangle)]
pub extern "C" fn axp_repair_spans(
    blocks: u32,
    spans: &[Span],
    image: &[u8],
    out: &mut [u8],
) -> AxpResult
    ensures { SpansRepaired blocks (table_of spans.now) image.now out.old (c_result result) out.new }
{
    spans::repair_spans(blocks, spans, image, out).into()
}

// Packing.
#[unsafe(no_mangle)]
pub extern "C" fn axp_pack(blocks: u32, image: &[u8], out: &mut [u8]) -> AxpResult
    ensures { WasPacked blocks image.now out.old (c_result result) out.new }
{
    packed::pack(blocks, image, out).into()
}

// Unpacking.
#[unsafe(no_mangle)]
pub extern "C" fn axp_unpack(blocks: u32, packed: &[u8], out: &mut [u8]) -> AxpResult
    ensures { WasUnpacked blocks packed.now out.old (c_result result) out.new }
{
    packed::unpack(blocks, packed, out).into()
}

// Writer of a cartridge file. C's axp_written is code's Written.
#[unsafe(no_mangle)]
pub extern "C" fn axp_file_write(entries: u32, bytes: &[u8], out: &mut [u8]) -> Written
    ensures { FileWritten entries bytes.now out.old result out.new }
{
    writer::write(entries, bytes, out).into()
}

// The number of a file's entries. C's axp_counted is code's Counted.
#[unsafe(no_mangle)]
pub extern "C" fn axp_file_count(file: &[u8]) -> Counted
    ensures { FileCounted file.now result }
{
    files::count(file).into()
}

// Reader of a cartridge file. C's axp_stretch is code's Stretch.
#[unsafe(no_mangle)]
pub extern "C" fn axp_file_entry(file: &[u8], index: u32) -> Stretch
    ensures { EntryFound file.now index result }
{
    files::find(file, index).into()
}
