// A mask in a u32, a bit for each user place, and the four bytes that it is kept in: bits are set and tested by shifts, and bytes put together and taken apart by them.
#![tactic(auto)]

ghost use Rattle.std.specs.Prelude.{◌≡◌, true, false, not, ◌&&◌, ◌||◌, ℕ, ◌+◌, ◌-◌, ◌*◌, ◌%◌, ◌≤◌, ◌<◌, ◌^◌, eqb, ltb, length};
ghost use Rattle.model.specs.Limits.{max_users};
ghost use Rattle.masks.specs.Bits.{bit_at, none_from, byte_bits, mask_bytes, decode_mask, encode_mask};

use lexical::limits::MAX_USERS;

// How many bits a byte has, and the number that has them all set.
const BYTE_BITS: u32 = 8;

const FULL: u32 = (1 << BYTE_BITS) - 1;

// How many bytes a mask has.
pub const MASK: usize = MAX_USERS / BYTE_BITS as usize;

// A mask with the bit of the place j set.
pub fn with_bit(mask: u32, j: usize) -> u32
    requires { j < max_users }
    ensures { (k : ℕ) → bit_at result k ≡ (eqb k j || bit_at mask k) }
{
    mask | (1 << j)
}

// Whether the bit of the place j is set.
pub fn has_bit(mask: u32, j: usize) -> bool
    requires { j < max_users }
    ensures { result ≡ bit_at mask j }
{
    (mask >> j) & 1 == 1
}

// Whether no bit is set from the place j on.
pub fn none_from(mask: u32, j: usize) -> bool
    requires { j < max_users }
    ensures { result ≡ none_from mask j }
{
    mask >> j == 0
}

// The lowest place whose bit is set.
pub fn first_bit(mask: u32) -> usize
    requires { 0 < mask }
    ensures { (result < max_users) × (bit_at mask result ≡ true) × ((k : ℕ) → k < result → bit_at mask k ≡ false) }
{
    u32::trailing_zeros(mask) as usize
}

// A mask without the bit of the place j, which is set in it.
pub fn without_bit(mask: u32, j: usize) -> u32
    requires { (j < max_users) × (bit_at mask j ≡ true) }
    ensures { (result < mask) × ((k : ℕ) → bit_at result k ≡ (not (eqb k j) && bit_at mask k)) }
{
    mask ^ (1 << j)
}

// The mask of the first n places, formed in 64 bits, as n may be all of them.
pub fn first_places(n: usize) -> u32
    requires { n ≤ max_users }
    ensures { (k : ℕ) → bit_at result k ≡ ltb k n }
{
    let one: u64 = 1;
    ((one << n) - 1) as u32
}

// The bits that are set in both masks.
pub fn both(a: u32, b: u32) -> u32
    ensures { (k : ℕ) → bit_at result k ≡ (bit_at a k && bit_at b k) }
{
    a & b
}

// The bits of a mask that are not set in another.
pub fn difference(a: u32, b: u32) -> u32
    ensures { (k : ℕ) → bit_at result k ≡ (bit_at a k && not (bit_at b k)) }
{
    a & (a ^ b)
}

// A byte more at the end where it counts least: by a shift, as document 02 has masks; the edits `shifted_by_seven` and `seven_bits` are of shifts, which `from_le_bytes` would hide.
fn with_byte(high: u32, low: u8) -> u32
    requires { high < 2 ^ (max_users - byte_bits) }
    ensures { (result ≡ low + 2 ^ byte_bits * high) × (result < 2 ^ byte_bits * (high + 1)) }
{
    (high << BYTE_BITS) | (low as u32)
}

// The mask in the first four bytes.
pub fn decode_mask(s: &[u8]) -> u32
    requires { mask_bytes ≤ length s.now }
    ensures { result ≡ decode_mask s.now }
{
    with_byte(with_byte(with_byte(with_byte(0, s[3]), s[2]), s[1]), s[0])
}

// The byte that counts least.
fn low_byte(mask: u32) -> u8
    ensures { result ≡ mask % 2 ^ byte_bits }
{
    (mask & FULL) as u8
}

// The bytes of a mask.
pub fn encode_mask(mask: u32) -> [u8; MASK]
    ensures { result ≡ encode_mask mask }
{
    let second = mask >> BYTE_BITS;
    let third = second >> BYTE_BITS;
    let fourth = third >> BYTE_BITS;
    [
        low_byte(mask),
        low_byte(second),
        low_byte(third),
        low_byte(fourth),
    ]
}
