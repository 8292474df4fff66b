// Sets of states, by value.
#![tactic(auto)]

ghost use Rattle.std.specs.Prelude.{◌≡◌, false, not, ◌&&◌, ◌||◌, ◌^◌, eqb, ltb, get_or, set};
ghost use Rattle.std.specs.Bool.{beq};
ghost use Rattle.lists.specs.Lists.{nonempty, write};
ghost use Rattle.states.specs.Sets.{words as words_of, words_at, of_words, member, set_of, members, same_states, least_of};

// Four words: state s has weight 2^(s mod 64) in word s div 64.
#[derive(Clone, Copy)]
pub struct States {
    pub w0: u64,
    pub w1: u64,
    pub w2: u64,
    pub w3: u64,
}

// No state.
const NONE: States = States {
    w0: 0,
    w1: 0,
    w2: 0,
    w3: 0,
};

// Every state.
const EVERY: States = States {
    w0: u64::MAX,
    w1: u64::MAX,
    w2: u64::MAX,
    w3: u64::MAX,
};

// Word i of some; past the end 0. (`get` is a function of std, whose code is shut.)
fn word_at(words: &[u64], i: usize) -> u64
    ensures { result ≡ get_or words.now i 0 }
{
    if i < words.len() {
        return words[i];
    }
    0
}

// Writes word i, if it is there.
fn put_word(words: &mut [u64], i: usize, word: u64)
    ensures { words.new ≡ set words.old i word }
{
    if i < words.len() {
        words[i] = word;
    }
}

impl States {
    // The words of a set.
    pub const WORDS: usize = 4;

    // The set that four words are, from word i on. A word past the end counts as 0.
    pub fn at(words: &[u64], i: usize) -> States
        ensures { result ≡ words_at words.now i }
    {
        if words.len() <= i {
            return States::empty();
        }
        States {
            w0: word_at(words, i),
            w1: word_at(words, i + 1),
            w2: word_at(words, i + 2),
            w3: word_at(words, i + 3),
        }
    }

    // The set that four words are.
    pub fn of_words(words: &[u64; States::WORDS]) -> States
        ensures { result ≡ of_words words.now }
    {
        States::at(words, 0)
    }

    // Writes its words from word i on. What there is no room for is left out.
    pub fn put(self, words: &mut [u64], i: usize)
        ensures { words.new ≡ write words.old i (words_of self) }
    {
        if words.len() <= i {
            return;
        }
        put_word(words, i, self.w0);
        put_word(words, i + 1, self.w1);
        put_word(words, i + 2, self.w2);
        put_word(words, i + 3, self.w3);
    }

    // Its words.
    pub fn words(self) -> [u64; States::WORDS]
        ensures { result ≡ words_of self }
    {
        [self.w0, self.w1, self.w2, self.w3]
    }

    // Every state, or none.
    pub fn uniform(all: bool) -> States
        ensures { result ≡ set_of (λ s. all) }
    {
        if all { EVERY } else { NONE }
    }

    pub fn empty() -> States
        ensures { result ≡ set_of (λ s. false) }
    {
        NONE
    }

    // The states of n facts: those below 2^n.
    pub fn all(n: usize) -> States
        ensures { result ≡ set_of (λ s. ltb s (2 ^ n)) }
    {
        match n {
            0 => States { w0: 1, ..NONE },
            1 => States { w0: 3, ..NONE },
            2 => States { w0: 15, ..NONE },
            3 => States { w0: 255, ..NONE },
            4 => States { w0: 65535, ..NONE },
            5 => States {
                w0: 4294967295,
                ..NONE
            },
            6 => States {
                w0: u64::MAX,
                ..NONE
            },
            7 => States {
                w0: u64::MAX,
                w1: u64::MAX,
                ..NONE
            },
            _ => EVERY,
        }
    }

    // The set of one state.
    pub fn one(s: u8) -> States
        ensures { result ≡ set_of (λ t. eqb t s) }
    {
        let w = 1u64 << (s % 64);
        match s / 64 {
            0 => States { w0: w, ..NONE },
            1 => States { w1: w, ..NONE },
            2 => States { w2: w, ..NONE },
            _ => States { w3: w, ..NONE },
        }
    }

    // Whether a state is in the set.
    pub fn has(self, s: u8) -> bool
        ensures { result ≡ member self s }
    {
        let w = match s / 64 {
            0 => self.w0,
            1 => self.w1,
            2 => self.w2,
            _ => self.w3,
        };
        (w >> (s % 64)) % 2 == 1
    }

    // The set with a state.
    pub fn with(self, s: u8) -> States
        ensures { result ≡ set_of (λ t. member self t || eqb t s) }
    {
        self.union(States::one(s))
    }

    // The set whose words a function gives of the words of both.
    fn zip<F: Fn(u64, u64) -> u64>(self, other: States, f: F) -> States
        requires { F.IsAlwaysCallable f }
        ensures w0 { F.post f self.w0 other.w0 result.w0 }
        ensures w1 { F.post f self.w1 other.w1 result.w1 }
        ensures w2 { F.post f self.w2 other.w2 result.w2 }
        ensures w3 { F.post f self.w3 other.w3 result.w3 }
    {
        States {
            w0: f(self.w0, other.w0),
            w1: f(self.w1, other.w1),
            w2: f(self.w2, other.w2),
            w3: f(self.w3, other.w3),
        }
    }

    // The states in both sets.
    pub fn intersect(self, other: States) -> States
        ensures { result ≡ set_of (λ s. member self s && member other s) }
    {
        self.zip(other, |a, b| a & b)
    }

    // The states in either set.
    pub fn union(self, other: States) -> States
        ensures { result ≡ set_of (λ s. member self s || member other s) }
    {
        self.zip(other, |a, b| a | b)
    }

    // The states that are in this set and not in the other.
    pub fn difference(self, other: States) -> States
        ensures { result ≡ set_of (λ s. member self s && not (member other s)) }
    {
        self.zip(other, |a, b| a & !b)
    }

    // The states that aren't in the set.
    pub fn complement(self) -> States
        ensures { result ≡ set_of (λ s. not (member self s)) }
    {
        EVERY.difference(self)
    }

    // The states that are in both sets or in neither.
    pub fn agreement(self, other: States) -> States
        ensures { result ≡ set_of (λ s. beq (member self s) (member other s)) }
    {
        self.zip(other, |a, b| !(a ^ b))
    }

    // Whether no state is in the set.
    pub fn is_empty(self) -> bool
        ensures { result ≡ not (nonempty (members self)) }
    {
        (self.w0 | self.w1 | self.w2 | self.w3) == 0
    }

    // Whether both sets have the same states. (A derived `==` compares numbers by a function of std, whose code is shut.)
    pub fn equals(self, other: States) -> bool
        ensures { result ≡ same_states self other }
    {
        (self.w0 == other.w0)
            & (self.w1 == other.w1)
            & (self.w2 == other.w2)
            & (self.w3 == other.w3)
    }

    // The least state in the set, or 0 if there is none.
    pub fn least(self) -> u8
        ensures { result ≡ least_of (members self) }
    {
        for s in 0..=255u8 {
            if self.has(s) {
                return s;
            }
        }
        0
    }
}
