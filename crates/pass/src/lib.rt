// One decoding pass by successive cancellation.
#![tactic(auto)]

ghost use Rattle.std.specs.Prelude.{◌≡◌, ◌&&◌, ◌+◌, ◌*◌, ◌≤◌, eqb, leb, length};
ghost use Rattle.laws.specs.Clauses.{segment};
ghost use Rattle.values.specs.Values.{mask_rule};
ghost use Rattle.pass_ends.specs.Clauses.{arrays};
ghost use Rattle.pass.specs.Clauses.{Ruled, NodePre, NodePost, PassPre, pass_of, PassPost};

use arrays::{BitArray, RuleArray, SIZE, ValueArray};
use code::Code;
use pass_ends::{decode_four, leaf, rebuild};
use pass_halves::{NodeValues, RootValues, left_values, right_values};
use pass_tree::Work;
use transform::combine;

// Whether a node is of layer 2 and has no forced bit.
fn is_free_four(layer: u32, base: usize, q: usize) -> bool
    ensures { result ≡ (eqb layer 2 && leb q base) }
{
    layer == 2 && q <= base
}

// A node below the root: `size` is 2^layer, and its indices start at `base`. Bits at indices below q are forced.
fn decode_node(
    layer: u32,
    size: usize,
    base: usize,
    q: usize,
    rules: &RuleArray,
    work: &mut ValueArray,
    bits: &mut BitArray,
    sums: &mut BitArray,
    leaves: &mut ValueArray,
) -> Work
    requires { NodePre SIZE layer size base q (arrays work.old bits.old sums.old leaves.old) (segment work.old size size)
        × (size + size ≤ SIZE) }
    ensures { NodePost layer size base q rules.now (segment work.old size size)
        (arrays work.old bits.old sums.old leaves.old)
        (arrays work.new bits.new sums.new leaves.new) result }
{
    if base + size <= q {
        rebuild(layer, size, base, bits, sums);
        return Work::none();
    }
    if is_free_four(layer, base, q) {
        return decode_four(base, rules, work, bits, sums, leaves);
    }
    if layer == 0 {
        leaf(base, work[1], rules, bits, sums, leaves);
        return Work::none();
    }
    let h = size / 2;
    let left = left_values(base + h <= q, &NodeValues, h, work);
    let l = decode_node(layer - 1, h, base, q, rules, work, bits, sums, leaves);
    let right = right_values(&NodeValues, h, base, sums, work);
    let r = decode_node(layer - 1, h, base + h, q, rules, work, bits, sums, leaves);
    combine(sums, base, h);
    left.plus(l).plus(right.plus(r))
}

// A whole pass whose first q bits are forced; they are the first q of `bits`. If all are forced nothing is done.
pub fn pass(
    code: Code,
    q: usize,
    channel: &[u8],
    rules: &RuleArray,
    work: &mut ValueArray,
    bits: &mut BitArray,
    sums: &mut BitArray,
    leaves: &mut ValueArray,
) -> Work
    requires { PassPre SIZE code q channel.now (arrays work.old bits.old sums.old leaves.old) }
    ensures { PassPost SIZE (pass_of code q channel.now rules.now bits.old) q
        (arrays work.old bits.old sums.old leaves.old)
        (arrays work.new bits.new sums.new leaves.new) result }
{
    let size = channel.len();
    if size <= q {
        return Work::none();
    }
    let h = size / 2;
    let root = RootValues { channel };
    let left = left_values(h <= q, &root, h, work);
    let l = decode_node(code.n - 1, h, 0, q, rules, work, bits, sums, leaves);
    let right = right_values(&root, h, 0, sums, work);
    let r = decode_node(code.n - 1, h, h, q, rules, work, bits, sums, leaves);
    left.plus(l).plus(right.plus(r))
}

// The rules of a plain pass: the usual decision at the information indices of the mask.
pub fn rules_from(mask: &[u8], rules: &mut RuleArray)
    requires { (8 * length mask.now ≤ SIZE) × (length rules.old ≡ SIZE) }
    ensures { Ruled (8 * length mask.now) (mask_rule mask.now) rules.new
        × (length rules.new ≡ SIZE) }
{
    let size = 8 * mask.len();
    for (i, rule) in rules[..size].iter_mut().enumerate() {
        *rule = bits::mask_bit(mask, i);
    }
}
