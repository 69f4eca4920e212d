// A raster: the pairs of a left state (its row) and a right state (its bit in the row), each row in whole bytes. One
// pair of it is read and taken out.
#![tactic(auto)]

ghost use Rattle.std.specs.Prelude.{◌≡◌, true, ◌+◌, ◌*◌, ◌/◌, ◌≤◌, ◌<◌, length, set};
ghost use Rattle.bitmaps.specs.Packed.{bytes_for};
ghost use Rattle.tables_rows.specs.Raster.{set_at, without};
ghost use Rattle.limits.specs.Limits.{state_limit};

// Where the pair (s, t) stands among the bits of a raster, whose rows take whole bytes.
fn place(n: usize, w: usize, s: usize, t: usize) -> usize
    requires { (n ≤ state_limit) × ((w ≤ state_limit) × ((s < n) × (t < w))) }
    ensures { result ≡ 8 * (s * bytes_for w) + t }
{
    8 * (s * bitmaps::bytes_for(w)) + t
}

// Whether the pair (s, t) is set: bit t of row s.
pub fn is_set(raster: &[u8], n: usize, w: usize, s: usize, t: usize) -> bool
    requires { (n ≤ state_limit) × ((w ≤ state_limit) × ((s < n) × ((t < w)
        × (n * bytes_for w ≤ length raster.now)))) }
    ensures { result ≡ set_at w raster.now s t }
{
    bitmaps::get(raster, place(n, w, s, t))
}

// Takes the pair (s, t), which is set, out of the raster.
pub fn clear(raster: &mut [u8], n: usize, w: usize, s: usize, t: usize)
    requires { (n ≤ state_limit) × ((w ≤ state_limit) × ((s < n) × ((t < w) × ((n * bytes_for w ≤ length raster.old)
        × (set_at w raster.old s t ≡ true))))) }
    ensures { raster.new ≡ without w raster.old s t }
{
    let i = place(n, w, s, t);
    bitmaps::clear(raster, i);
}
