//! How much of a heap is in use.
ghost use Rattle.std.specs.Prelude.{◌≡◌, ◌+◌, ◌-◌, ◌<◌, ◌≤◌, ◌^◌, max};

/// The words in use, those of the live blocks with their headers, and the most there ever were.
#[derive(Clone, Copy)]
pub struct Usage {
    pub words: u32,
    pub most: u32,
}

impl Usage {
    /// The usage of a new heap.
    pub fn none() -> Usage
        ensures { result ≡ record { words = 0; most = 0 } }
    {
        Usage { words: 0, most: 0 }
    }

    /// This many words more are in use.
    #[inline(always)]
    pub fn give(&mut self, words: u32)
        requires { self.old.words + words < 2 ^ 32 }
        ensures { self.new ≡ record { words = self.old.words + words; most = max self.old.most (self.old.words + words) } }
    {
        self.words += words;

        // A branch: where equally many were in use before, nothing is stored.
        if self.most < self.words {
            self.most = self.words;
        }
    }

    /// This many words came back.
    #[inline(always)]
    pub fn take_back(&mut self, words: u32)
        requires { words ≤ self.old.words }
        ensures { self.new ≡ record self.old { words = self.old.words - words } }
    {
        self.words -= words;
    }
}
