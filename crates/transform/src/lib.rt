// The polar transform, in place: of bits, one a byte, on a segment of a working array, and of packed bits.
#![tactic(auto)]

ghost use Rattle.std.specs.Prelude.{◌≡◌, ◌+◌, ◌*◌, ◌^◌, get_or};
ghost use Rattle.laws.specs.Table.{table};
ghost use Rattle.laws.specs.Clauses.{splice, segment};
ghost use Rattle.bits.specs.Packing.{packed, unpacked};
ghost use Rattle.transform.specs.Transform.{transformed, xors};
ghost use Rattle.transform.specs.Clauses.{BitsAt, BytesAt, transformed_byte, folded, xor_bytes};

use arrays::{BitArray, ByteArray, SIZE};

// Replaces the first of two halves of h bytes, from `base` on, by the exclusive-or of both. They are written by index: a proof knows nothing
// of what an `iter_mut().zip` wrote.
fn xor_halves(bytes: &mut ByteArray, base: usize, h: usize)
    requires { BytesAt SIZE bytes.old base (h + h) }
    ensures { bytes.new
        ≡ splice bytes.old base (xor_bytes h (segment bytes.old base h) (segment bytes.old (base + h) h)) }
{
    for j in 0..h {
        bytes[base + j] ^= bytes[base + h + j];
    }
}

// Replaces the first of two halves of h bits, from `base` on, by the exclusive-or of both.
pub fn combine(bits: &mut BitArray, base: usize, h: usize)
    requires { BitsAt SIZE bits.old base (h + h) }
    ensures { bits.new
        ≡ splice bits.old base (xors h (segment bits.old base h) (segment bits.old (base + h) h)) }
{
    xor_halves(bits, base, h);
}

// Folds the 2^layer bytes from `base` on: left half and right half first, then both combined. `size` is 2^layer.
fn fold(layer: u32, size: usize, base: usize, bytes: &mut ByteArray)
    requires { (size ≡ 2 ^ layer) × BytesAt SIZE bytes.old base size }
    ensures { bytes.new ≡ splice bytes.old base (folded layer (segment bytes.old base size)) }
{
    let single = layer == 0;
    if single {
        return;
    }
    // a pair is combined without further calls, which spares half of all calls
    if layer == 1 {
        xor_halves(bytes, base, 1);
        return;
    }
    let h = size / 2;
    fold(layer - 1, h, base, bytes);
    fold(layer - 1, h, base + h, bytes);
    xor_halves(bytes, base, h);
}

// Transforms the 2^layer bits from `base` on.
pub fn transform(layer: u32, size: usize, base: usize, bits: &mut BitArray)
    requires { (size ≡ 2 ^ layer) × BitsAt SIZE bits.old base size }
    ensures { bits.new ≡ splice bits.old base (transformed layer (segment bits.old base size)) }
{
    fold(layer, size, base, bits);
}

// The eight bits of a byte, transformed: at each layer each left half becomes the exclusive-or of both halves.
fn transform_byte(byte: u8) -> u8
    ensures { result ≡ transformed_byte byte }
{
    let pairs = byte ^ ((byte << 1) & 0xAA);
    let fours = pairs ^ ((pairs << 2) & 0xCC);
    fours ^ ((fours << 4) & 0xF0)
}

// Transforms the bits of each of the first `size` bytes.
fn transform_bytes(size: usize, bytes: &mut ByteArray)
    requires { BytesAt SIZE bytes.old 0 size }
    ensures { bytes.new ≡ splice bytes.old 0 (table (λ m. transformed_byte (get_or bytes.old m 0)) size) }
{
    for byte in bytes[..size].iter_mut() {
        *byte = transform_byte(*byte);
    }
}

// Transforms the packed bits of the first 2^layer bytes. `size` is 2^layer.
pub fn transform_packed(layer: u32, size: usize, bytes: &mut ByteArray)
    requires { (size ≡ 2 ^ layer) × BytesAt SIZE bytes.old 0 size }
    ensures { bytes.new
        ≡ splice bytes.old 0 (packed (transformed (layer + 3) (unpacked (segment bytes.old 0 size) (8 * size)))) }
{
    transform_bytes(size, bytes);
    fold(layer, size, 0, bytes);
}
