// The longest code, the working arrays that are made for it, and lists with zeros after them.
#![tactic(auto)]

ghost use Rattle.std.specs.Prelude.{◌≡◌, ◌+◌, ◌≤◌, length, drop};
ghost use Rattle.laws.specs.Clauses.{splice, segment};
ghost use Rattle.arrays.specs.Padded.{all_zero};

// The largest n: a code has at most 2^n bits.
pub const LARGEST_N: u32 = 12;

// As many bits as the longest code has.
pub const SIZE: usize = 1 << LARGEST_N;

// As many bytes as they take, packed.
pub const BYTES: usize = SIZE / 8;

// A working array of bytes.
pub type ByteArray = [u8; SIZE];

// A working array of bits, one a byte.
pub type BitArray = ByteArray;

// A working array of values: below the root, those of the node at layer s stand from index 2^s on.
pub type ValueArray = [i32; SIZE];

// The rule of each index: 0 frozen, 1 the usual decision, 3 its opposite.
pub type RuleArray = [u8; SIZE];

// Copies `count` bytes of the source, from index `start` on, to index `at` on of the target. By `copy_from_slice` the library would need `memmove`
// from outside.
pub fn copy(source: &[u8], start: usize, target: &mut [u8], at: usize, count: usize)
    requires { (start + count ≤ length source.now) × (at + count ≤ length target.old) }
    ensures { target.new ≡ splice target.old at (segment source.now start count) }
{
    for j in 0..count {
        target[at + j] = source[start + j];
    }
}

// Whether every byte from an index on is zero. No branch depends on a byte, so the loop takes many at once.
pub fn is_zero_from(bytes: &[u8], start: usize) -> bool
    requires { start ≤ length bytes.now }
    ensures { result ≡ all_zero (drop start bytes.now) }
{
    let mut any = 0;
    for byte in &bytes[start..] {
        any |= *byte;
    }
    any == 0
}
