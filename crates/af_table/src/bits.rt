//! Which numbers below the largest limit are taken.
ghost use Rattle.std.specs.Prelude.{◌≡◌, ℕ, ◌-◌, ◌≤◌, ◌<◌, IfSome, IfNone, not, true, false};
ghost use Rattle.std.specs.Prelude.{if◌then◌else◌, nat_eq};
ghost use Rattle.af_table.specs.Bits.{is_taken, IsPlace, HasNoPlace};

use af_base::limits::MAX_NOFILE;

/// How many words have a bit for each number.
const WORDS: usize = (MAX_NOFILE / u64::BITS) as usize;

/// A bit for each number below the largest limit: it is set where the number is taken.
#[derive(Clone, Copy)]
pub struct Bits {
    pub words: [u64; WORDS],
}

impl Bits {
    /// Makes an empty set.
    pub fn new() -> Bits
        ensures { (q : ℕ) → is_taken result.words q ≡ false }
    {
        Bits { words: [0; WORDS] }
    }

    /// Returns whether the number is in the set. None beyond the largest limit is.
    #[inline(always)]
    pub fn has(&self, n: u32) -> bool
        ensures { result ≡ is_taken self.now.words n }
    {
        let i = (n / u64::BITS) as usize;
        i < WORDS && (self.words[i] >> (n % u64::BITS)) % 2 == 1
    }

    /// Adds the number.
    #[inline(always)]
    pub fn set(&mut self, n: u32)
        requires { n < MAX_NOFILE }
        ensures { (q : ℕ) → is_taken self.new.words q
            ≡ (if nat_eq q n then true else is_taken self.old.words q) }
    {
        self.words[(n / u64::BITS) as usize] |= 1 << (n % u64::BITS);
    }

    /// Removes the number.
    #[inline(always)]
    pub fn clear(&mut self, n: u32)
        requires { n < MAX_NOFILE }
        ensures { (q : ℕ) → is_taken self.new.words q
            ≡ (if nat_eq q n then false else is_taken self.old.words q) }
    {
        self.words[(n / u64::BITS) as usize] &= !(1 << (n % u64::BITS));
    }

    /// Returns the least number from `from` on and below `end` that is in the set, or that is not.
    /// Looks at each word once, and at none behind the answer's.
    #[inline(always)]
    pub fn next(&self, from: u32, end: u32, taken: bool) -> Option<u32>
        requires { end ≤ MAX_NOFILE }
        ensures found { IfSome result (λ n. is_taken self.now.words n ≡ taken) }
        ensures low { IfSome result (λ n. n < end) }
        ensures reached { IfSome result (λ n. from ≤ n) }
        ensures least { IfSome result (λ n.
            (q : ℕ) → from ≤ q → q < n → is_taken self.now.words q ≡ not taken) }
        ensures none { IfNone result
            ((q : ℕ) → from ≤ q → q < end → is_taken self.now.words q ≡ not taken) }
    {
        let mut i = from / u64::BITS;
        let mut low = from % u64::BITS;
        while u64::BITS * i < end {
            if let Some(bit) = bit_from(self.words[i as usize], low, taken) {
                let n = u64::BITS * i + bit;
                return if n < end { Some(n) } else { None };
            }
            i += 1;
            low = 0;
        }
        None
    }

    /// Returns the least number that is not in the set, if it is below `end`. Compares with `end`
    /// last, so a search past full words takes one comparison for each.
    #[inline(always)]
    pub fn first_zero(&self, end: u32) -> Option<u32>
        requires { end ≤ MAX_NOFILE }
        ensures found { IfSome result (λ n. is_taken self.now.words n ≡ false) }
        ensures low { IfSome result (λ n. n < end) }
        ensures least { IfSome result (λ n. (q : ℕ) → q < n → is_taken self.now.words q ≡ true) }
        ensures none { IfNone result ((q : ℕ) → q < end → is_taken self.now.words q ≡ true) }
    {
        for i in 0..WORDS {
            if let Some(bit) = bit_from(self.words[i], 0, false) {
                let n = u64::BITS * i as u32 + bit;
                return if n < end { Some(n) } else { None };
            }
        }
        None
    }

    /// Returns a bound above each number of the set that is below `below`: one more than a number
    /// of the set, or 0. Looks at no word behind that of `below`.
    pub fn end_below(&self, below: u32) -> u32
        requires { below ≤ MAX_NOFILE }
        ensures free { (q : ℕ) → result ≤ q → q < below → is_taken self.now.words q ≡ false }
        ensures last { 0 < result → is_taken self.now.words (result - 1) ≡ true }
    {
        for i in (0..below.div_ceil(u64::BITS)).rev() {
            let word = self.words[i as usize];
            if word != 0 {
                return u64::BITS * (i + 1) - word.leading_zeros();
            }
        }
        0
    }
}

/// Returns the least position in `word`, from `from` on, whose bit is 1 if `set`, else 0.
#[inline(always)]
#[tactic(auto, using(crate::proofs::Words::places))]
fn bit_from(word: u64, from: u32, set: bool) -> Option<u32>
    requires { from < 64 }
    ensures place { IfSome result (λ n. IsPlace word from set n) }
    ensures none { IfNone result (HasNoPlace word from set) }
{
    if set {
        return set_bit_from(word, from);
    }
    set_bit_from(!word, from)
}

/// Returns the least position in `word`, from `from` on, whose bit is set.
#[inline(always)]
#[tactic(auto, using(crate::proofs::Words::places))]
fn set_bit_from(word: u64, from: u32) -> Option<u32>
    requires { from < 64 }
    ensures place { IfSome result (λ n. IsPlace word from true n) }
    ensures none { IfNone result (HasNoPlace word from true) }
{
    let high = word & (u64::MAX << from);
    if high == 0 {
        return None;
    }
    Some(high.trailing_zeros())
}
