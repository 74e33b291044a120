// The untried sets of a search, in order, each as one number.
#![tactic(auto)]

ghost use Rattle.std.specs.Prelude.{◌≡◌, [], ◌∷◌, ◌++◌, map, ◌*◌, ◌^◌, ◌≤◌, ◌<◌, length, take};
ghost use Rattle.flip_order.specs.Order.{magnitude_at};
ghost use Rattle.flip_order.specs.Clauses.{most_magnitude};
ghost use Rattle.decoder.specs.Candidate.{doubtful, extensions};
ghost use Rattle.sets_queue.specs.Clauses.{base, set_key, digit_at, indices_of, Place, none_untried, with_keys, Taken, WalkPre, SetPre, stem_of, stem_with, StemFits, doubt, key_with, keys_with};

use arrays::SIZE;
use std::marker::Model;

// The base of a key's digits. The digit of an index is one above it; digit 0 stands for no index.
const BASE: u64 = 2 * SIZE as u64;

// The most indices of a set.
pub const FLIPS: usize = 3;

// A set to which one more index will be appended.
#[derive(Clone, Copy)]
pub struct Stem {
    // The sum of its leaf magnitudes.
    pub sum: u64,
    // Its digits, in the places of a key.
    pub digits: u64,
    // The weight of the next digit.
    pub weight: u64,
    // The first index that may be appended.
    pub from: usize,
}

// The leaf values of a trial: a small one for each index of a mask.
#[derive(Clone, Copy)]
pub struct Leaves<'a> {
    pub mask: &'a [u8],
    pub values: &'a [i32],
    pub ghost small: { WalkPre mask.now values.now },
}

impl Leaves<'_> {
    // The magnitude of a leaf value.
    fn magnitude_at(&self, j: usize) -> u64
        requires { j < 8 * length self.now.mask.now }
        ensures { result ≡ magnitude_at self.now.values.now j }
    {
        values::magnitude(self.values[j]) as u64
    }

    // 1 if an index is doubtful, otherwise 0. A doubtful index is an information index with a magnitude of at most 20.
    fn doubt(&self, j: usize) -> u64
        requires { j < 8 * length self.now.mask.now }
        ensures { result ≡ doubt self.now.mask.now self.now.values.now j }
    {
        u64::from(bits::mask_bit(self.mask, j) == 1 && self.magnitude_at(j) <= 20)
    }

    // How many of the indices below `end` are doubtful.
    fn doubtful(&self, end: usize) -> u64
        requires { end ≤ 8 * length self.now.mask.now }
        ensures { result ≡ doubtful self.now.mask.now self.now.values.now end }
    {
        let mut count = 0;
        for j in 0..end {
            count += self.doubt(j);
        }
        count
    }

    // A stem with one index more.
    fn stem_with(&self, stem: Stem, i: usize) -> Stem
        requires { (i < 8 * length self.now.mask.now)
            × (stem.sum ≤ most_magnitude)
            × (stem.digits ≤ base ^ 3)
            × (stem.weight ≤ base ^ 2) }
        ensures { result ≡ stem_with self.now.values.now stem i }
    {
        Stem {
            sum: stem.sum + self.magnitude_at(i),
            digits: stem.digits + (i as u64 + 1) * stem.weight,
            weight: stem.weight / BASE,
            from: i + 1,
        }
    }

    // The stem of a set of at most two indices.
    fn stem_of(&self, set: &[usize]) -> Stem
        requires { SetPre (8 * length self.now.mask.now) set.now }
        ensures { result ≡ stem_of self.now.values.now set.now }
    {
        let mut stem = Stem {
            sum: 0,
            digits: 0,
            weight: BASE * BASE,
            from: 0,
        };
        for i in set {
            stem = self.stem_with(stem, *i);
        }
        stem
    }

    // The key of the set that appends j, if `small` indices up to and including j are doubtful.
    fn key_with(&self, stem: Stem, small: u64, j: usize) -> u64
        requires { (j < 8 * length self.now.mask.now)
            × StemFits stem
            × (small ≤ SIZE) }
        ensures { result ≡ key_with self.now.values.now stem small j }
    {
        let metric = stem.sum + self.magnitude_at(j) + 6 * small;
        metric * (BASE * BASE * BASE) + (stem.digits + (j as u64 + 1) * stem.weight)
    }
}

// The keys of the untried sets in order, the least first, in lent memory.
#[derive(Drop)]
pub struct Queue<'a> {
    // The keys, and behind them the free places.
    places: &'a mut [u64],
    // How many keys there are.
    len: usize,
}

// Clauses see the keys, and for how many there is room.
impl<'a> Model for Queue<'a> {
    ghost use Rattle.sets_queue.specs.Clauses.{Untried};

    ghost Value = { Untried };

    ghost use Rattle.sets_queue.specs.Claims.{untried, Places};

    ghost view = { untried };

    ghost invariant = { Places };
}

impl<'a> Queue<'a> {
    // A queue with no key, and room for as many as there are places.
    pub fn new(places: &'a mut [u64]) -> Self
        ensures { result ≡ none_untried (length places.old) }
    {
        Queue { places, len: 0 }
    }

    // Takes the least key, and with it its place.
    pub fn pop_first(&mut self) -> Option<u64>
        ensures { Taken result self.old self.new }
    {
        if self.len == 0 {
            return None;
        }
        let places = std::mem::take(&mut self.places);
        let key = places[0];
        self.places = &mut places[1..];
        self.len -= 1;
        Some(key)
    }

    // How many keys are not above a key.
    fn place_of(&self, key: u64) -> usize
        ensures { Place key self.now.keys result }
    {
        self.places[..self.len]
            .iter()
            .rposition(|k| *k <= key)
            .map_or(0, |i| i + 1)
    }

    // Inserts a key after all that are not above it. Without room for one more, the greatest key goes.
    fn insert(&mut self, key: u64)
        ensures { self.new ≡ with_keys (key ∷ []) self.old }
    {
        let at = self.place_of(key);
        if at == self.places.len() {
            return;
        }
        let last = self.len.min(self.places.len() - 1);
        self.places.copy_within(at..last, at + 1);
        self.places[at] = key;
        self.len = last + 1;
    }

    // Inserts the set that appends j, if j is an information index.
    fn append(&mut self, leaves: &Leaves, stem: Stem, small: u64, j: usize)
        requires { (j < 8 * length leaves.now.mask.now)
            × StemFits stem
            × (small ≤ SIZE) }
        ensures { self.new
            ≡ with_keys (keys_with leaves.now.mask.now leaves.now.values.now stem small j) self.old }
    {
        if bits::mask_bit(leaves.mask, j) == 1 {
            self.insert(leaves.key_with(stem, small, j));
        }
    }

    // Inserts each set that appends an information index to `set`.
    pub fn extend(&mut self, leaves: Leaves, set: &[usize])
        requires { SetPre (8 * length leaves.mask.now) set.now }
        ensures { self.new
            ≡ with_keys (map set_key (extensions leaves.entry.mask.now leaves.entry.values.now set.now
            (8 * length leaves.entry.mask.now))) self.old }
    {
        let stem = leaves.stem_of(set);
        let mut small = leaves.doubtful(stem.from);
        // A variable of its own, which the loop holds in registers.
        let mut queue = std::mem::replace(self, Queue::new(&mut []));
        for j in stem.from..8 * leaves.mask.len() {
            small += leaves.doubt(j);
            queue.append(&leaves, stem, small, j);
        }
        *self = queue;
    }
}

// The digit of a key that has this weight.
fn digit_at(weight: u64, key: u64) -> usize
    requires { 0 < weight }
    ensures { result ≡ digit_at weight key }
{
    (key / weight % BASE) as usize
}

// The indices of a set, in order.
#[derive(Drop)]
pub struct Indices {
    room: [usize; FLIPS],
    len: usize,
}

// Clauses see the indices.
impl Model for Indices {
    ghost use Rattle.std.specs.Prelude.{List, ℕ, take, ◌≤◌};
    ghost use Rattle.sets_queue.specs.declared.TheConstants.{FLIPS};

    ghost Value = { List ℕ };

    ghost view = { λ s. take s.len s.room };

    ghost invariant = { λ s. s.len ≤ FLIPS };
}

impl Indices {
    fn new() -> Self
        ensures { result ≡ [] }
    {
        Indices {
            room: [0; FLIPS],
            len: 0,
        }
    }

    fn push(&mut self, i: usize)
        requires { length self.old < FLIPS }
        ensures { self.new ≡ self.old ++ i ∷ [] }
    {
        self.room[self.len] = i;
        self.len += 1;
    }

    pub fn as_slice(&self) -> &[usize]
        ensures { result.now ≡ self.now }
    {
        &self.room[..self.len]
    }
}

// The indices of a key, which has at least one.
pub fn indices_of(key: u64) -> Indices
    requires { 0 < digit_at (base ^ 2) key }
    ensures { result ≡ indices_of key }
{
    let mut set = Indices::new();
    set.push(digit_at(BASE * BASE, key) - 1);
    let second = digit_at(BASE, key);
    if second == 0 {
        return set;
    }
    set.push(second - 1);
    let third = digit_at(1, key);
    if third == 0 {
        return set;
    }
    set.push(third - 1);
    set
}
