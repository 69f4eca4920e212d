// Counts the pairs set in a raster: the ones byte by byte, after the padding of each row is taken off.
#![tactic(auto)]

ghost use Rattle.std.specs.Prelude.{◌≡◌, suc, ◌+◌, ◌-◌, ◌*◌, ◌/◌, ◌%◌, ◌≤◌, ◌<◌, length};
ghost use Rattle.bitmaps.specs.Bits.{bit_at};
ghost use Rattle.bitmaps.specs.Packed.{bytes_for};
ghost use Rattle.tables_rows.specs.Raster.{set_at};
ghost use Rattle.tables_count.specs.Pairs.{high_ones, passing, pairs_set, Fewer, Among, Lost, block};
ghost use Rattle.limits.specs.Limits.{state_limit, keep_limit};

// The ones among the first m + 1 bits of a byte, the others taken off.
fn byte_ones(b: u8, m: usize) -> usize
    requires { m < 8 }
    ensures { result ≡ high_ones b (suc m) }
{
    let k = 7 - m;
    let x = b >> k;
    u32::count_ones(x as u32) as usize
}

// The ones of a whole byte. A row has few enough of them for 16 bits, and so more bytes are counted at once.
fn whole_ones(b: u8) -> u16
    ensures { result ≡ high_ones b 8 }
{
    u32::count_ones(b as u32) as u16
}

// The ones of a row of w bits, byte by byte. Kept: counted byte by byte, those of the last byte after its padding is taken
// off, since padding is never counted (SPECIFICATION 11.3).
pub fn row_ones(row: &[u8], w: usize) -> usize
    requires { (w ≤ state_limit) × (bytes_for w ≤ length row.now) }
    ensures { result ≡ passing (bit_at row.now) w }
{
    let full = w / 8;
    let rest = w % 8;
    let mut r: u16 = 0;
    for i in 0..full {
        r += whole_ones(row[i]);
    }
    let whole = r as usize;
    if rest == 0 {
        return whole;
    }
    whole + byte_ones(row[full], rest - 1)
}

// What byte i of `old` loses: the ones of the difference.
fn byte_lost(old: &[u8], row: &[u8], i: usize) -> u8
    requires { (i < length old.now) × ((i < length row.now) × Among (i + 1) old.now row.now) }
    ensures { (result ≤ 8) × Lost old.now row.now i (i + 1) result }
{
    let x = old[i] - row[i];
    u32::count_ones(x as u32) as u8
}

// The bytes of a block: their ones fit one byte, so that the compiler counts all bytes of a block side by side.
const BLOCK: usize = 16;

// What the bytes of the block from byte j on lose.
fn block_lost(old: &[u8], row: &[u8], j: usize) -> u8
    requires { (j + block ≤ length old.now) × ((j + block ≤ length row.now)
        × Among (j + block) old.now row.now) }
    ensures { (result ≤ 8 * block) × Lost old.now row.now j (j + block) result }
{
    let mut r: u8 = 0;
    for i in 0..BLOCK {
        r += byte_lost(old, row, j + i);
    }
    r
}

// What the bytes of the first m blocks lose.
fn blocks_lost(old: &[u8], row: &[u8], m: usize) -> usize
    requires { (m * block ≤ keep_limit) × ((m * block ≤ length old.now) × ((m * block ≤ length row.now)
        × Among (m * block) old.now row.now)) }
    ensures { (result ≤ 8 * (m * block)) × Lost old.now row.now 0 (m * block) result }
{
    let mut r: usize = 0;
    for i in 0..m {
        r += block_lost(old, row, i * BLOCK) as usize;
    }
    r
}

// How many of the first w bits that are set in `old` are not set in `row`, whose bits are among them: block by block, and
// byte by byte behind the last whole block. The two are summed up apart, for in one sum of u32 the compiler would count
// blocks side by side in place of their bytes.
pub fn row_lost(old: &[u8], row: &[u8], w: usize) -> usize
    requires { (w ≤ state_limit) × ((bytes_for w ≤ length old.now) × ((bytes_for w ≤ length row.now)
        × Fewer w old.now row.now)) }
    ensures { result + passing (bit_at row.now) w ≡ passing (bit_at old.now) w }
{
    let b = bitmaps::bytes_for(w);
    let m = b / BLOCK;
    let whole = blocks_lost(old, row, m);
    let mut r: u32 = 0;
    for i in m * BLOCK..b {
        r += byte_lost(old, row, i) as u32;
    }
    whole + r as usize
}

// The number of pairs set in a raster of n rows.
pub fn pairs(raster: &[u8], n: usize, w: usize) -> usize
    requires { (n ≤ state_limit) × ((w ≤ state_limit) × (n * bytes_for w ≤ length raster.now)) }
    ensures { result ≡ pairs_set (set_at w raster.now) w n }
{
    let b = bitmaps::bytes_for(w);
    let mut r: usize = 0;
    for s in 0..n {
        let a = s * b;
        let e = a + b;
        let row = &raster[a..e];
        r += row_ones(row, w);
    }
    r
}
