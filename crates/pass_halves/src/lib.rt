// The values of a node's halves, in place.
#![tactic(auto)]

ghost use Rattle.std.specs.Prelude.{◌≡◌, ◌+◌, ◌<◌, ◌≤◌, ℕ, List, ℤ, pos, length, get_or};
ghost use Rattle.laws.specs.Clauses.{segment};
ghost use Rattle.values.specs.Values.{right_values, left_values};
ghost use Rattle.channel.specs.Channel.{channel_values};
ghost use Rattle.pass_tree.specs.Clauses.{computed_unless};
ghost use Rattle.pass_halves.specs.Clauses.{node_values, ValuesPre, ValuesPost};

use arrays::{BitArray, SIZE, ValueArray};
use channel::channel_value;
use pass_tree::Work;
use values::{f, g};

// Where the 2h values of a node stand.
pub trait Values {
    // All of them, in order, by h and the working array.
    ghost values: { Self → ℕ → List ℤ → List ℤ };

    // Values j and h + j: read one by one, they make a slower loop.
    fn pair(&self, h: usize, work: &ValueArray, j: usize) -> (i32, i32)
        requires { (j < h) × (length (values self.now h work.now) ≡ h + h) }
        ensures { (result.0 ≡ get_or (values self.now h work.now) j (pos 0))
            × (result.1 ≡ get_or (values self.now h work.now) (h + j) (pos 0)) };
}

// Those of a node below the root stand in the working array, from index 2h on.
#[derive(Drop)]
pub struct NodeValues;

impl Values for NodeValues {
    ghost values = { λ node h work. node_values work h };

    fn pair(&self, h: usize, work: &ValueArray, j: usize) -> (i32, i32) {
        (work[2 * h + j], work[3 * h + j])
    }
}

// Those of the root are the channel's.
#[derive(Drop)]
pub struct RootValues<'a> {
    pub channel: &'a [u8],
}

impl Values for RootValues<'_> {
    ghost values = { λ root h work. channel_values root.channel.now };

    fn pair(&self, h: usize, _work: &ValueArray, j: usize) -> (i32, i32) {
        (
            channel_value(self.channel[j]),
            channel_value(self.channel[h + j]),
        )
    }
}

// The values of a node's left half, from its own 2h values; none if the half is forced.
pub fn left_values<V: Values>(forced: bool, node: &V, h: usize, work: &mut ValueArray) -> Work
    requires { ValuesPre SIZE (V.values node.now h) h work.old }
    ensures { ValuesPost (computed_unless forced (left_values h (V.values node.now h work.old))) h work.old work.new result }
{
    if forced {
        return Work::none();
    }
    let mut steps = 0;
    for j in 0..h {
        let (a, b) = node.pair(h, work, j);
        work[h + j] = f(a, b);
        steps += 1;
    }
    Work::of(steps)
}

// The values of a node's right half, by the sums of its left half, which stand from `base` on.
pub fn right_values<V: Values>(
    node: &V,
    h: usize,
    base: usize,
    sums: &BitArray,
    work: &mut ValueArray,
) -> Work
    requires { ValuesPre SIZE (V.values node.now h) h work.old × (base + h ≤ SIZE) }
    ensures { ValuesPost (right_values h (V.values node.now h work.old) (segment sums.now base h)) h
        work.old work.new result }
{
    let mut steps = 0;
    for j in 0..h {
        let (a, b) = node.pair(h, work, j);
        work[h + j] = g(a, b, sums[base + j]);
        steps += 1;
    }
    Work::of(steps)
}
