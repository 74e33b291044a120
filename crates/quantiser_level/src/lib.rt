// One sample as a channel value in quarter units.
#![tactic(auto)]

ghost use Rattle.std.specs.Prelude.{◌≡◌, not, ◌<◌, min, T};
ghost use Rattle.std.specs.Float.{binary32};
ghost use Rattle.std.specs.Float.Ieee.{mul, is_nan};
ghost use Rattle.channel.specs.Channel.{byte_of};
ghost use Rattle.quantiser_level.specs.Level.{magnitude, nearest, quarters, level, level_of};

// What becomes of one sample.
#[derive(Clone, Copy)]
pub struct Level {
    // its channel value
    pub byte: u8,
    // 1 if its product is clipped, else 0
    pub clipped: usize,
    // the magnitude of its product
    pub magnitude: f32,
}

// The bit pattern of the largest float below 1/8.
const BELOW_EIGHTH: u32 = 0x3dff_ffff;

// The bit pattern of the largest float below 8.
const BELOW_EIGHT: u32 = 0x40ff_ffff;

// The whole number nearest to v / 2^25, halves up.
fn rounded(v: u32) -> u32
    requires { v < 0x4000_0000 }
    ensures { result ≡ nearest v 0x200_0000 }
{
    (v + 0x100_0000) >> 25
}

// The whole number nearest to 4|p|, or 32 if that number is larger. The significand is shifted so that 4|p| has 25 bits of fraction. A
// magnitude below 1/8 becomes 0, and one of 8 or more becomes 32.
fn nearest_quarters(p: f32) -> u32
    requires { T (not (is_nan p)) }
    ensures { result ≡ min 32 (quarters p) }
{
    let bits = (p.to_bits() % 0x8000_0000).clamp(BELOW_EIGHTH, BELOW_EIGHT);
    let significand = 0x80_0000 + bits % 0x80_0000;
    rounded(significand << (bits / 0x80_0000 - 123))
}

// The output byte. n is the whole number nearest to 4|p|, or 32 if that number is larger; 32 is clipped to 31.
fn level_byte(p: f32, n: u32) -> u8
    requires { n ≡ min 32 (quarters p) }
    ensures { result ≡ byte_of (level p) }
{
    let clipped = n - n / 32;
    if p < 0.0 {
        ((256 - clipped) % 256) as u8
    } else {
        clipped as u8
    }
}

// p without its sign: the sign bit cleared. `abs` compares twice instead, and makes quantising slower by an eighth.
fn absolute(p: f32) -> f32
    requires { T (not (is_nan p)) }
    ensures { result ≡ magnitude p }
{
    f32::from_bits(p.to_bits() % 0x8000_0000)
}

// What becomes of the sample y. The product is a number if the scale is valid and y is a number.
pub fn quantise_one(scale: f32, y: f32) -> Level
    requires { T (not (is_nan (mul binary32 scale y))) }
    ensures { result ≡ level_of (mul binary32 scale y) }
{
    let p = scale * y;
    let n = nearest_quarters(p);
    let byte = level_byte(p, n);
    let magnitude = absolute(p);
    Level {
        byte,
        clipped: (n / 32) as usize,
        magnitude,
    }
}
