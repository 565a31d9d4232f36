// Sixteen numbers in a word, four bits each; the first stands in the lowest four.
ghost use Rattle.std.specs.Prelude.{◌≡◌, map, ℕ, ◌+◌, ◌≤◌, ◌<◌, eqb, replicate};
ghost use Rattle.std.specs.Iterator.{YieldsFirst, item_count};
ghost use Rattle.model.specs.Searches.{up_to};
ghost use Rattle.model.specs.Formed.{times};
ghost use Rattle.lists.specs.Words.{nibble, with_nibble, nibbles};

// The first numbers of a word, from the first on.
#[derive(Clone, Copy)]
pub struct Nibbles {
    rest: u64,
    left: usize,
}

impl Nibbles {
    pub fn of(word: u64, count: usize) -> Nibbles
        ensures { nibbles result.left result.rest ≡ nibbles count word }
    {
        Nibbles {
            rest: word,
            left: count,
        }
    }
}

impl Iterator for Nibbles {
    type Item = u8;

    ghost next_gives = { YieldsFirst (λ s. nibbles s.left s.rest) };

    ghost remaining = { item_count (λ s. nibbles s.left s.rest) };

    fn next(&mut self) -> Option<u8> {
        if self.left == 0 {
            return None;
        }
        let first = (self.rest % 16) as u8;
        self.rest = self.rest / 16;
        self.left -= 1;
        Some(first)
    }
}

// The number at a place.
pub fn nibble_at(word: u64, place: u8) -> u8
    requires { place < 16 }
    ensures { result ≡ nibble word place }
{
    let by = 4 * (place as u64);
    let rest = word >> by;
    (rest % 16) as u8
}

// The word with another number at a place.
pub fn with_nibble(word: u64, place: u8, value: u8) -> u64
    requires { (place < 16) × (value < 16) }
    ensures { result ≡ with_nibble word place value }
{
    let by = 4 * (place as u64);
    let old = (word >> by) % 16;
    let new = value as u64;
    word - (old << by) + (new << by)
}

// How often each number stands among the first ones of a word, counted in a table that is lent, so that it is copied nowhere.
pub fn tally(word: u64, count: usize, found: &mut [u8])
    requires { (count ≤ 16) × (found.old ≡ replicate 16 0) }
    ensures { found.new ≡ map (λ k. times (λ u. eqb u k) (nibbles count word)) (up_to 16) }
{
    for t in Nibbles::of(word, count) {
        found[t as usize] += 1;
    }
}

// A one more at the place of each number that stands among the first ones of a word, counted on from a word that is given.
pub fn marks(start: u64, word: u64, count: usize) -> u64
    requires { (count ≤ 16) × ((t : ℕ) → t < 16 → nibble start t + count < 16) }
    ensures { (t : ℕ) → t < 16 → nibble result t ≡ nibble start t + times (λ u. eqb u t) (nibbles count word) }
{
    let mut total = start;
    for t in Nibbles::of(word, count) {
        let one: u64 = 1;
        total += one << (4 * (t as u64));
    }
    total
}
