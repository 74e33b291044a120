// The values of a node, and the decision at a leaf.
#![tactic(auto)]

ghost use Rattle.std.specs.Prelude.{◌≡◌, ◌+◌, ◌^◌, ◌<◌, min, pos, nat_abs};
ghost use Rattle.values.specs.Values.{decided, g, f, hard};
ghost use Rattle.values.specs.Clauses.{rule_of};

// The magnitude of a value.
pub fn magnitude(a: i32) -> i32
    requires { nat_abs a < 2 ^ 31 }
    ensures { result ≡ pos (nat_abs a) }
{
    a.abs()
}

// 1 if the value is negative, else 0.
pub fn hard(a: i32) -> u8
    ensures { result ≡ hard a }
{
    u8::from(a < 0)
}

// A left value: the smaller magnitude, with the product of the signs.
pub fn f(a: i32, b: i32) -> i32
    requires { (nat_abs a < 2 ^ 31) × (nat_abs b < 2 ^ 31) }
    ensures { result ≡ f a b }
{
    let m = magnitude(a).min(magnitude(b));
    if hard(a) == hard(b) { m } else { -m }
}

// A right value, by the left sum bit.
pub fn g(a: i32, b: i32, sum: u8) -> i32
    requires { nat_abs a + nat_abs b < 2 ^ 31 }
    ensures { result ≡ g a b sum }
{
    if sum == 0 { a + b } else { b - a }
}

// The bit at a leaf, without a branch: 0 at a frozen index, otherwise the sign, inverted if the rule is the opposite decision.
pub fn decide(rule: u8, value: i32) -> u8
    ensures { result ≡ decided (rule_of rule) value }
{
    (rule & 1) & (hard(value) ^ ((rule >> 1) & 1))
}
