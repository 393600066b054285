//! A set of small numbers.

ghost use Rattle.std.specs.Prelude.{◌≡◌, ◌<◌, ◌*◌, ℕ, length, not, true, false, IfOk};
ghost use Rattle.std.specs.Int.{div_ceil};
ghost use Rattle.vbm_volume.specs.Marks.{is_marked, MarksOneMore};

use std::alloc::Global;
use std::marker::Model;
use vbm_ports::NoMemory;

/// A set of numbers below a limit, a bit for each, 64 in a word. Contracts see it as its words.
#[derive(Drop)]
pub struct Marks {
    words: Vec<u64>,
}

impl Model for Marks {
    ghost use Rattle.std.specs.Prelude.{ℕ, List};

    ghost Value = { List ℕ };

    ghost view = { λ marks. marks.words.items };
}

impl Marks {
    /// The empty set, with room for the numbers below `end`.
    pub fn new(alloc: Global, end: u32) -> Result<Marks, NoMemory>
        ensures room { IfOk result (λ marks. length marks ≡ div_ceil end 64) }
        ensures empty { IfOk result (λ marks. (n : ℕ) → is_marked marks n ≡ false) }
    {
        match vec![in alloc; 0; end.div_ceil(64) as usize] {
            Ok(words) => Ok(Marks { words }),
            Err(_) => Err(NoMemory),
        }
    }

    /// Adds a number, and says whether it is new. It takes no memory.
    pub fn mark(&mut self, n: u32) -> bool
        requires { n < 64 * length self.old }
        ensures fresh { result ≡ not (is_marked self.old n) }
        ensures more { MarksOneMore self.old self.new n }
        ensures room { length self.new ≡ length self.old }
    {
        let word = &mut self.words[n as usize / 64];
        let is_new = *word >> (n % 64) & 1 == 0;
        *word |= 1 << (n % 64);
        is_new
    }

    /// Whether a number is in the set.
    pub fn is_marked(&self, n: u32) -> bool
        requires { n < 64 * length self.now }
        ensures { result ≡ is_marked self.now n }
    {
        self.words[n as usize / 64] >> (n % 64) & 1 == 1
    }

    /// Lends the words: number n has bit n % 64 of word n / 64.
    pub fn words(&self) -> &[u64]
        ensures { result.now ≡ self.now }
    {
        &self.words
    }

    /// Takes all numbers out, and keeps the room.
    pub fn clear(&mut self)
        ensures empty { (n : ℕ) → is_marked self.new n ≡ false }
        ensures room { length self.new ≡ length self.old }
    {
        self.words.fill(0);
    }
}
