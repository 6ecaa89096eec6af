// Numbers as bytes, high byte first, read and written. For the crates of the image; a caller of the library uses none of this.
#![tactic(auto)]

ghost use Rattle.std.specs.Prelude.{◌≡◌, ◌+◌, ◌*◌, ◌≤◌, ◌<◌, length};
ghost use Rattle.model.specs.Image.{bytes_of, number_at, words4, numbers_at};
ghost use Rattle.octets.specs.Placed.{placed};

// The number in the two bytes at a position.
pub fn number2(bs: &[u8], at: usize) -> usize
    requires { at + 2 ≤ length bs.now }
    ensures { (result ≡ number_at bs.now at 2) × (result < 65536) }
{
    usize::from(u16::from_be_bytes([bs[at], bs[at + 1]]))
}

// The number in the four bytes at a position.
pub fn number4(bs: &[u8], at: usize) -> u32
    requires { at + 4 ≤ length bs.now }
    ensures { result ≡ number_at bs.now at 4 }
{
    u32::from_be_bytes([bs[at], bs[at + 1], bs[at + 2], bs[at + 3]])
}

// The two low bytes of a number, from a position on.
pub fn put2(out: &mut [u8], at: usize, x: usize)
    requires { at + 2 ≤ length out.old }
    ensures { out.new ≡ placed at (bytes_of 2 x) out.old }
{
    let [.., high, low] = x.to_be_bytes();
    out[at..at + 2].copy_from_slice(&[high, low]);
}

// A number in the four bytes from a position on.
pub fn put4(out: &mut [u8], at: usize, x: u32)
    requires { at + 4 ≤ length out.old }
    ensures { out.new ≡ placed at (bytes_of 4 x) out.old }
{
    out[at..at + 4].copy_from_slice(&x.to_be_bytes());
}

// Words, each as a number of four bytes.
pub fn put_words(out: &mut [u8], at: usize, ws: &[u32])
    requires { at + 4 * length ws.now ≤ length out.old }
    ensures { out.new ≡ placed at (words4 ws.now) out.old }
{
    for (i, w) in ws.iter().enumerate() {
        put4(out, at + 4 * i, *w);
    }
}

// n words, each from four bytes.
fn get_run(t: &mut [u32], at: usize, bs: &[u8], n: usize)
    requires { (4 * n ≤ length bs.now) × (at + n ≤ length t.old) }
    ensures { t.new ≡ placed at (numbers_at n bs.now) t.old }
{
    for i in 0..n {
        t[at + i] = number4(bs, 4 * i);
    }
}

// The same, the first eight apart: a loop of a fixed count is faster, an image's reading takes a seventh more instructions without it.
pub fn get_words(t: &mut [u32], at: usize, bs: &[u8], n: usize)
    requires { (4 * n ≤ length bs.now) × (at + n ≤ length t.old) }
    ensures { t.new ≡ placed at (numbers_at n bs.now) t.old }
{
    if 8 <= n {
        get_run(t, at, bs, 8);
        get_run(t, at + 8, &bs[32..], n - 8);
    } else {
        get_run(t, at, bs, n);
    }
}
