// Little-endian numbers in byte slices. Past the end of the slice a byte is read as 0, and none is written. Four readers, each of the one
// before it: one over a const width would give every caller a u64 to cast down.
#![tactic(auto)]

ghost use Rattle.std.specs.Prelude.{◌≡◌, ◌<◌, drop};
ghost use Rattle.std.proofs.lemmas.List.Edits.{sets};
ghost use Rattle.little.specs.Little.{little, bytes};

// The byte at a place.
pub fn u8_at(s: &[u8], at: usize) -> u32
    ensures { (result ≡ little 1 (drop at s.now)) × (result < 256) }
{
    if at < s.len() {
        return u32::from(s[at]);
    }
    0
}

// The number in the two bytes at a place.
pub fn u16_at(s: &[u8], at: usize) -> u32
    ensures { (result ≡ little 2 (drop at s.now)) × (result < 65536) }
{
    if at >= s.len() {
        return 0;
    }
    u8_at(s, at) + 256 * u8_at(s, at + 1)
}

// The number in the four bytes at a place.
pub fn u32_at(s: &[u8], at: usize) -> u32
    ensures { result ≡ little 4 (drop at s.now) }
{
    if at >= s.len() {
        return 0;
    }
    u16_at(s, at) + 65536 * u16_at(s, at + 2)
}

// The number in the eight bytes at a place.
pub fn u64_at(s: &[u8], at: usize) -> u64
    ensures { result ≡ little 8 (drop at s.now) }
{
    if at >= s.len() {
        return 0;
    }
    u64::from(u32_at(s, at)) + 4294967296 * u64::from(u32_at(s, at + 4))
}

// The k lowest bytes of x, from a place on and as far as there is room.
pub fn put(x: u64, k: usize, at: usize, out: &mut [u8])
    ensures { out.new ≡ sets out.old at (bytes k x) }
{
    let mut rest = x;
    for i in at..at.saturating_add(k).min(out.len()) {
        out[i] = (rest % 256) as u8;
        rest /= 256;
    }
}
