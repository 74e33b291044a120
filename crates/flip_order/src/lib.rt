// The order of flipped indices: each information index has a key, and the next one in order has the least key above the last.
#![tactic(auto)]

ghost use Rattle.std.specs.Prelude.{◌≡◌, ◌%◌, ◌≤◌, pos, nat_abs, length};
ghost use Rattle.arrays.specs.Claims.{longest};
ghost use Rattle.flip_order.specs.Clauses.{KeyPre, KeysPre, key_under, keys_of, above, least_above};

use arrays::SIZE;

// Stands for no key, for example at a frozen index. It is above every key.
const NO_KEY: i32 = 0x7fff_ffff;

// The key of an index with a leaf value, or NO_KEY if the index is frozen. Keys are ordered by magnitude, equal magnitudes by lower index.
fn key_under(mask: &[u8], value: i32, i: usize) -> i32
    requires { KeyPre mask.now value i }
    ensures { result ≡ pos (key_under mask.now value i) }
{
    if bits::mask_bit(mask, i) == 0 {
        return NO_KEY;
    }
    values::magnitude(value) * SIZE as i32 + i as i32
}

// Puts the key of each index in the place of its leaf value.
pub fn make_keys(mask: &[u8], values: &mut [i32])
    requires { KeysPre mask.now values.old }
    ensures { values.new ≡ keys_of mask.now values.old }
{
    let size = 8 * mask.len();
    for (i, value) in values[..size].iter_mut().enumerate() {
        *value = key_under(mask, *value, i);
    }
}

// The key if it is above the last one, otherwise NO_KEY.
fn above(last: i32, key: i32) -> i32
    ensures { result ≡ above last key }
{
    if last < key { key } else { NO_KEY }
}

// The least of those of the first `size` keys that are above the last one. `last` is -1 before the first.
pub fn next_key(size: usize, keys: &[i32], last: i32) -> i32
    requires { size ≤ length keys.now }
    ensures { result ≡ least_above last keys.now size }
{
    let mut best = NO_KEY;
    for key in &keys[..size] {
        best = best.min(above(last, *key));
    }
    best
}

// The index that a key belongs to.
pub fn index_of(key: i32) -> usize
    requires { key ≡ pos (nat_abs key) }
    ensures { result ≡ nat_abs key % longest }
{
    key as usize % SIZE
}
