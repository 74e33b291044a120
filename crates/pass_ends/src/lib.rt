// Nodes of the tree that end the recursion: all bits forced, a leaf, and small nodes with no forced bit.
#![tactic(auto)]

ghost use Rattle.std.specs.Prelude.{◌≡◌, [], ◌∷◌, ◌+◌, ◌^◌, ◌<◌, ◌≤◌, nat_abs, length, get_or};
ghost use Rattle.laws.specs.Clauses.{splice, segment};
ghost use Rattle.arrays.specs.Sizes.{largest_n};
ghost use Rattle.transform.specs.Transform.{transformed};
ghost use Rattle.transform.specs.Clauses.{BitsAt};
ghost use Rattle.values.specs.Claims.{Within};
ghost use Rattle.pass_tree.specs.Node.{work_of};
ghost use Rattle.pass_tree.specs.Claims.{most};
ghost use Rattle.pass_ends.specs.Clauses.{results, Sized, NodeStored};

use arrays::{BitArray, RuleArray, SIZE, ValueArray};
use pass_tree::Work;
use transform::{combine, transform};
use values::{decide, f, g};

// The sums of a node whose bits are all forced: no value is computed.
pub fn rebuild(layer: u32, size: usize, base: usize, bits: &BitArray, sums: &mut BitArray)
    requires { (size ≡ 2 ^ layer)
        × BitsAt SIZE bits.now base size
        × (length sums.old ≡ SIZE) }
    ensures { sums.new ≡ splice sums.old base (transformed layer (segment bits.now base size)) }
{
    arrays::copy(bits, base, sums, base, size);
    transform(layer, size, base, sums);
}

// A leaf whose bit is decided by its value; the bit comes back, as its sum.
pub fn leaf(
    base: usize,
    value: i32,
    rules: &RuleArray,
    bits: &mut BitArray,
    sums: &mut BitArray,
    leaves: &mut ValueArray,
) -> u8
    requires { Sized SIZE (results bits.old sums.old leaves.old)
        × (base + 1 ≤ SIZE) }
    ensures { (result ≡ get_or sums.new base 0)
        × NodeStored 0 1 base base rules.now (value ∷ [])
        (results bits.old sums.old leaves.old)
        (results bits.new sums.new leaves.new) (work_of []) }
{
    let bit = decide(rules[base], value);
    bits[base] = bit;
    sums[base] = bit;
    leaves[base] = value;
    bit
}

// A node of layer 1 with no forced bit, whose values are a and b.
fn decode_two(
    base: usize,
    a: i32,
    b: i32,
    rules: &RuleArray,
    bits: &mut BitArray,
    sums: &mut BitArray,
    leaves: &mut ValueArray,
) -> Work
    requires { Sized SIZE (results bits.old sums.old leaves.old)
        × (base + 2 ≤ SIZE)
        × (nat_abs a + nat_abs b < 2 ^ 31) }
    ensures { NodeStored 1 2 base base rules.now (a ∷ b ∷ [])
        (results bits.old sums.old leaves.old)
        (results bits.new sums.new leaves.new) result }
{
    let mut steps = 0;
    let first = leaf(base, f(a, b), rules, bits, sums, leaves);
    steps += 1;
    leaf(base + 1, g(a, b, first), rules, bits, sums, leaves);
    steps += 1;
    combine(sums, base, 1);
    Work::of(steps)
}

// A node of layer 2 with no forced bit; its values stand from index 4 on, as those of layer s do from 2^s on. Most calls of a pass are at or
// below this layer, so that it has no loop and no recursion.
pub fn decode_four(
    base: usize,
    rules: &RuleArray,
    work: &ValueArray,
    bits: &mut BitArray,
    sums: &mut BitArray,
    leaves: &mut ValueArray,
) -> Work
    requires { Sized SIZE (results bits.old sums.old leaves.old)
        × (base + 4 ≤ SIZE)
        × Within (most largest_n 2) (segment work.now 4 4) }
    ensures { NodeStored 2 4 base base rules.now (segment work.now 4 4)
        (results bits.old sums.old leaves.old)
        (results bits.new sums.new leaves.new) result }
{
    let a = work[4];
    let b = work[5];
    let c = work[6];
    let d = work[7];
    let mut steps = 0;
    let l = decode_two(base, f(a, c), f(b, d), rules, bits, sums, leaves);
    steps += 2;
    let s = sums[base];
    let t = sums[base + 1];
    let r = decode_two(base + 2, g(a, c, s), g(b, d, t), rules, bits, sums, leaves);
    steps += 2;
    combine(sums, base, 2);
    Work::of(steps).plus(l.plus(r))
}
