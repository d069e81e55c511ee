// Numbers in a byte slice, read and written at an offset, the lowest byte first: what a C host keeps between calls.
#![tactic(auto)]

ghost use Rattle.std.specs.Prelude.{◌≡◌};
ghost use Rattle.common.specs.Lists.{placed};
ghost use Rattle.bytes_at.specs.Numbers.{number, bytes_of, number_at};

// ---- reading

// N bytes from `at` on, 0 past the end.
fn bytes_from<const N: usize>(bytes: &[u8], at: usize) -> [u8; N]
    ensures { number result ≡ number_at N at bytes.now }
{
    let rest = bytes.get(at..).unwrap_or(&[]);
    if let Some(all) = rest.first_chunk::<N>() {
        return *all;
    }
    let mut from = [0; N];
    from[..rest.len()].copy_from_slice(rest);
    from
}

// The number in the four bytes from `at` on; of bytes that end before them, in those that are there.
pub fn u32_at(bytes: &[u8], at: usize) -> u32
    ensures { result ≡ number_at 4 at bytes.now }
{
    u32::from_le_bytes(bytes_from(bytes, at))
}

// The same of eight bytes.
pub fn u64_at(bytes: &[u8], at: usize) -> u64
    ensures { result ≡ number_at 8 at bytes.now }
{
    u64::from_le_bytes(bytes_from(bytes, at))
}

// ---- writing

// Writes `these` from `at` on; bytes that end before them stay as they are.
fn put(bytes: &mut [u8], at: usize, these: &[u8])
    ensures { bytes.new ≡ placed at these.now bytes.old }
{
    if bytes.len() < these.len() {
        return;
    }
    if bytes.len() - these.len() < at {
        return;
    }
    bytes[at..at + these.len()].copy_from_slice(these);
}

// Writes n in the four bytes from `at` on; bytes that end before them stay as they are.
pub fn put_u32(bytes: &mut [u8], at: usize, n: u32)
    ensures { bytes.new ≡ placed at (bytes_of 4 n) bytes.old }
{
    let four = n.to_le_bytes();
    put(bytes, at, &four);
}

// The same in eight bytes.
pub fn put_u64(bytes: &mut [u8], at: usize, n: u64)
    ensures { bytes.new ≡ placed at (bytes_of 8 n) bytes.old }
{
    let eight = n.to_le_bytes();
    put(bytes, at, &eight);
}
