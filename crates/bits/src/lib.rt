// Bits in bytes: a mask's bits, least bit first, and packed bits, highest bit first.
#![tactic(auto)]

ghost use Rattle.std.specs.Prelude.{◌≡◌, ◌*◌, ◌<◌, ◌≤◌, length, get_or};
ghost use Rattle.bits.specs.Bit.{bit};
ghost use Rattle.bits.specs.Claims.{Bits};
ghost use Rattle.bits.specs.Mask.{mask_bit, ones_in};
ghost use Rattle.bits.specs.Packing.{bytes_for, packed_byte, packed, unpacked};

// Bit i of a byte, 0 being the least.
fn bit_of(byte: u8, i: usize) -> u8
    requires { i < 8 }
    ensures { result ≡ bit byte i }
{
    (byte >> i) & 1
}

// 1 if index i is an information index, else 0.
pub fn mask_bit(mask: &[u8], i: usize) -> u8
    requires { i < 8 * length mask.now }
    ensures { result ≡ mask_bit mask.now i }
{
    bit_of(mask[i / 8], i % 8)
}

// How many information indices a mask has.
pub fn ones(mask: &[u8]) -> usize
    requires { length mask.now ≤ 65536 }
    ensures { result ≡ ones_in mask.now }
{
    let mut count: usize = 0;
    for byte in mask {
        count += byte.count_ones() as usize;
    }
    count
}

// Bit i of a list of bits, or 0 if the list is shorter.
fn bit_or_zero(bits: &[u8], i: usize) -> u8
    ensures { result ≡ get_or bits.now i 0 }
{
    bits.get(i).copied().unwrap_or(0)
}

// Byte m of the packed bits.
fn packed_byte(bits: &[u8], m: usize) -> u8
    requires { Bits bits.now × (8 * m < length bits.now) }
    ensures { result ≡ packed_byte bits.now m }
{
    let mut byte: u8 = 0;
    for b in 0..8 {
        byte = byte * 2 + bit_or_zero(bits, 8 * m + b);
    }
    byte
}

// How many bytes k bits take.
pub fn bytes_for(k: usize) -> usize
    ensures { result ≡ bytes_for k }
{
    k.div_ceil(8)
}

// Packs bits, one a byte, highest bit first.
pub fn pack(bits: &[u8], bytes: &mut [u8])
    requires { Bits bits.now × (length bytes.old ≡ bytes_for (length bits.now)) }
    ensures { bytes.new ≡ packed bits.now }
{
    for (m, byte) in bytes.iter_mut().enumerate() {
        *byte = packed_byte(bits, m);
    }
}

// Fills `bits` with the first bits of packed bytes, one a byte.
pub fn unpack(bytes: &[u8], bits: &mut [u8])
    requires { length bits.old ≤ 8 * length bytes.now }
    ensures { bits.new ≡ unpacked bytes.now (length bits.old) }
{
    for (i, bit) in bits.iter_mut().enumerate() {
        *bit = bit_of(bytes[i / 8], 7 - i % 8);
    }
}
