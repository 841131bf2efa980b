/// How many words of 64 locals a set has: a frame has at most 512 locals.
const WORDS: usize = 8;

/// A set of locals: those that a value was made from.
#[derive(Clone, Copy)]
pub struct Sources {
    words: [u64; 8],
}

impl Sources {
    pub const NONE: Sources = Sources { words: [0; 8] };

    /// The set of one local.
    pub fn of(local: usize) -> Sources {
        let mut made = Sources::NONE;
        made.words[local / 64 % WORDS] = 1 << (local % 64);
        made
    }

    pub fn has(self, local: usize) -> bool {
        self.words[local / 64 % WORDS] >> (local % 64) & 1 == 1
    }

    pub fn is_empty(self) -> bool {
        self.words.iter().all(|word| *word == 0)
    }

    /// What is in either set.
    pub fn with(self, other: Sources) -> Sources {
        let mut made = self;
        for at in 0..WORDS {
            made.words[at] |= other.words[at];
        }
        made
    }

    /// The set without a local.
    pub fn without(self, local: usize) -> Sources {
        let mut made = self;
        made.words[local / 64 % WORDS] &= !(1 << (local % 64));
        made
    }
}
