// Runs of words tested where they lie: the array of cells or routes of a record, and that of its counts.
ghost use Rattle.std.specs.Prelude.{◌≡◌, ℕ, ◌+◌, ◌*◌, ◌≤◌, Bool, length};
ghost use Rattle.fold.specs.All.{every};
ghost use Rattle.fold.specs.Rising.{rising};
ghost use Rattle.words.specs.Words.{words, part};
ghost use Rattle.words.specs.Tests.{Tests};

use super::word_number;

// Whether the k words of s from number first on rise strictly and each passes the test.
pub fn rising<F: Fn(u32) -> bool + Drop>(s: &[u8], first: usize, k: usize, test: F) -> bool
    requires fits { 4 * (first + k) ≤ length s.now }
    requires callable { F.IsAlwaysCallable test }
    ensures { (ok : ℕ → Bool) → Tests (F.post test) ok → result ≡ rising ok 0 (part first k (words s.now)) }
{
    let mut low = 0u64;
    for i in 0..k {
        let w = word_number(s, first + i);
        if u64::from(w) < low {
            return false;
        }
        if !test(w) {
            return false;
        }
        low = u64::from(w) + 1;
    }
    true
}

// Whether each of the k words of s from number first on passes the test.
pub fn every<F: Fn(u32) -> bool + Drop>(s: &[u8], first: usize, k: usize, test: F) -> bool
    requires fits { 4 * (first + k) ≤ length s.now }
    requires callable { F.IsAlwaysCallable test }
    ensures { (ok : ℕ → Bool) → Tests (F.post test) ok → result ≡ every ok (part first k (words s.now)) }
{
    for i in 0..k {
        let passes = test(word_number(s, first + i));
        if !passes {
            return false;
        }
    }
    true
}
