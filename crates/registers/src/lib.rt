// The encoder's registers, the source's figure 4: partial sums of the diagonals ahead, handed from position to position.
#![tactic(auto)]

ghost use Rattle.std.specs.Prelude.{◌≡◌, [], ◌∷◌, ◌+◌, ◌*◌, ◌<◌, ◌≤◌, length};
ghost use Rattle.registers.specs.Register.{Stepped};
ghost use Rattle.registers.specs.Steps.{SevenAt, Ordered, BlockBytes, CellsOf, Passed, TwoPassed, TwoHeld, Stretches, Held, Carried, TailHeld};
ghost use Rattle.registers.specs.Places.{Word, Words, Places, Shifted, BitsAt};

// Fifteen places for each set: its register of partial sums, or what enters it.
#[derive(Clone, Copy)]
pub struct Registers {
    pub a: [u8; 15],
    pub b: [u8; 15],
}

// What enters the registers, place by place: cells of one position, or bytes that have the cells of eight.
pub type Column = Registers;

// ---- Fifteen places as two words, so that a register is shifted and added to as a whole.

// The number whose bytes these are, the least significant first. On places that follow one another it compiles to one load.
// By `u64::from_le_bytes` the registers of 256 blocks took 11.1 µs, and by this sum 9.2.
fn word(a: u8, b: u8, c: u8, d: u8, e: u8, f: u8, g: u8, h: u8) -> u64
    ensures { Word (a ∷ b ∷ c ∷ d ∷ e ∷ f ∷ g ∷ h ∷ []) result }
{
    a as u64
        + 0x100 * (b as u64)
        + 0x1_0000 * (c as u64)
        + 0x100_0000 * (d as u64)
        + 0x1_0000_0000 * (e as u64)
        + 0x100_0000_0000 * (f as u64)
        + 0x1_0000_0000_0000 * (g as u64)
        + 0x100_0000_0000_0000 * (h as u64)
}

// The words of places 0 to 7, and of 8 to 14 with a 0 behind them.
fn words(r: [u8; 15]) -> (u64, u64)
    ensures { Words r result.0 result.1 }
{
    let [a, b, c, d, e, f, g, h, i, j, k, l, m, n, o] = r;
    (word(a, b, c, d, e, f, g, h), word(i, j, k, l, m, n, o, 0))
}

// The places whose words these are.
fn places(x: u64, y: u64) -> [u8; 15]
    ensures { Places x y result }
{
    let [a, b, c, d, e, f, g, h] = x.to_le_bytes();
    let [i, j, k, l, m, n, o, _] = y.to_le_bytes();
    [a, b, c, d, e, f, g, h, i, j, k, l, m, n, o]
}

// A register shifted by one place towards its head, and a cell added to each place.
fn shifted(r: [u8; 15], cells: [u8; 15]) -> [u8; 15]
    ensures { Shifted r cells result }
{
    let (x, y) = words(r);
    let (u, v) = words(cells);
    places((x >> 8) ^ (y << 56) ^ u, (y >> 8) ^ v)
}

// Bit k of the byte at each place. (`k < 8` is asked by the three functions that shift by k: a shift takes a number, and so do they.)
fn bits_at(bytes: [u8; 15], k: u32) -> [u8; 15]
    requires { k < 8 }
    ensures { BitsAt bytes k result }
{
    let (x, y) = words(bytes);
    places(
        (x >> k) & 0x101_0101_0101_0101,
        (y >> k) & 0x101_0101_0101_0101,
    )
}

// ---- From a payload to columns

// Seven bytes of a payload.
fn seven_at(payload: &[u8], at: usize) -> [u8; 7]
    requires { at + 7 ≤ length payload.now }
    ensures { SevenAt payload.now at result }
{
    let mut bytes = [0; 7];
    bytes.copy_from_slice(&payload[at..at + 7]);
    bytes
}

// The order of a register's places: tracks 1 to 7 of its own set, then 7 to 1 of the other. The last place is track 0's.
fn ordered(own: [u8; 7], across: [u8; 7]) -> [u8; 15]
    ensures { Ordered own across result }
{
    let [a, b, c, d, e, f, g] = own;
    let [h, i, j, k, l, m, n] = across;
    [a, b, c, d, e, f, g, n, m, l, k, j, i, h, 0]
}

// The bytes of the block at `at`, in the order of the registers.
fn block_bytes(payload: &[u8], at: usize) -> Column
    requires { at + 14 ≤ length payload.now }
    ensures { BlockBytes payload.now at result }
{
    let a = seven_at(payload, at);
    let b = seven_at(payload, at + 7);
    Column {
        a: ordered(a, b),
        b: ordered(b, a),
    }
}

// `carry` is lent A's and B's stretch apart, and `pass` and `pass_two` take them so: a struct of the two would be made there alone, and
// taken apart at the one place that writes.
impl Registers {
    // The cells of one position: bit k of each byte of a column.
    fn cells(self, k: u32) -> Column
        requires { k < 8 }
        ensures { CellsOf self k result }
    {
        Column {
            a: bits_at(self.a, k),
            b: bits_at(self.b, k),
        }
    }

    // ---- The step

    // The registers after a position whose cells are in a column. Track 0 of a set is the head of its register, and enters the
    // other's last place.
    pub fn step(self, c: Column) -> Registers
        ensures { Stepped self c result }
    {
        let mut into_a = c.a;
        into_a[14] = self.b[0];
        let a = shifted(self.a, into_a);
        let mut into_b = c.b;
        into_b[14] = self.a[0];
        let b = shifted(self.b, into_b);
        Registers { a, b }
    }

    // ---- Positions

    // Position m passes: the heads are its tracks 0, and its other cells are bit k of each byte.
    fn pass(self, a: &mut [u8], b: &mut [u8], m: usize, bytes: Column, k: u32) -> Registers
        requires m_in_bounds { m < length a.old }
        requires m_in_bounds_2 { m < length b.old }
        requires k_bound { k < 8 }
        ensures { Passed m k self bytes a.old b.old a.new b.new result }
    {
        a[m] = self.a[0];
        b[m] = self.b[0];
        self.step(bytes.cells(k))
    }

    // Positions m and m + 1 of a block pass, with bits k + 1 and k of its bytes. By `pass` alone, eight times, 256 blocks took 9.7 µs in
    // place of 9.2.
    fn pass_two(self, a: &mut [u8], b: &mut [u8], m: usize, bytes: Column, k: u32) -> Registers
        requires m_in_bounds { m + 2 ≤ length a.old }
        requires m_in_bounds_2 { m + 2 ≤ length b.old }
        requires k_bound { k < 7 }
        ensures passed { TwoPassed m k self bytes a.old b.old a.new b.new result }
        ensures held { TwoHeld m k self bytes a.old b.old a.new b.new }
    {
        self.pass(a, b, m, bytes, k + 1).pass(a, b, m + 1, bytes, k)
    }
}

// Tracks 0 of both sets for a payload: its blocks pass, and then the tail.
pub fn carry(a: &mut [u8], b: &mut [u8], payload: &[u8], blocks: usize)
    requires { Stretches blocks payload.now a.old b.old }
    ensures carried { Carried blocks payload.now a.new b.new }
    ensures held { Held blocks payload.now (8 * blocks + 15) a.new b.new }
    ensures tail { TailHeld blocks payload.now a.new b.new }
{
    let mut r = Registers {
        a: [0; 15],
        b: [0; 15],
    };
    for block in 0..blocks {
        let bytes = block_bytes(payload, 14 * block);
        let m = 8 * block;
        // The eight positions, the first with the most significant bits. They are written out: in a loop over `pass` the registers stay
        // in memory, and 256 blocks took 22.1 µs in place of 9.2, in one over `pass_two` 16.6.
        r = r
            .pass_two(a, b, m, bytes, 6)
            .pass_two(a, b, m + 2, bytes, 4)
            .pass_two(a, b, m + 4, bytes, 2)
            .pass_two(a, b, m + 6, bytes, 0);
    }
    // In the tail no cells enter but tracks 0, and those behind places that are still to pass. So its tracks 0 are the places as they
    // stand. At each position of the tail the registers are these places, slid (`slid`, `TailHeld`).
    let m = 8 * blocks;
    a[m..].copy_from_slice(&r.a);
    b[m..].copy_from_slice(&r.b);
}
