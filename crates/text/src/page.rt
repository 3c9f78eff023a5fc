// A page: a lent area, and the place where its text goes on. Each piece is put whole, or not at all
// where it has no room.
ghost use Rattle.std.specs.Prelude.{◌≡◌, ◌++◌};
ghost use Rattle.text.specs.Page.{Writes};
ghost use Rattle.text.specs.Text.{decimal, headed, bad, joint};

#[derive(Drop)]
pub struct Page<'a> {
    pub area: &'a mut [u8],
    pub at: usize,
}

impl Page<'_> {
    // A word.
    pub fn word(&mut self, word: &[u8])
        ensures { Writes word.now self.old self.new }
    {
        self.at = areas::put(self.area, self.at, word);
    }

    // A number in decimal.
    pub fn number(&mut self, n: u32)
        ensures { Writes (decimal n) self.old self.new }
    {
        self.at = crate::put_number(self.area, self.at, n);
    }

    // A number, and a word behind it.
    pub fn then(&mut self, n: u32, word: &[u8])
        ensures { Writes (decimal n ++ word.now) self.old self.new }
    {
        self.at = crate::put_then(self.area, self.at, n, word);
    }

    // A word, a number, and the line's end.
    pub fn headed(&mut self, word: &[u8], n: u32)
        ensures { Writes (headed word.now n) self.old self.new }
    {
        self.at = crate::put_headed(self.area, self.at, word, n);
    }

    // The text of a plan file that is refused by a number, at a block.
    pub fn bad(&mut self, number: u32, block: u32)
        ensures { Writes (bad number block) self.old self.new }
    {
        self.at = crate::put_bad(self.area, self.at, number, block);
    }

    // The line of two ports that are joined.
    pub fn joint(&mut self, q: u32, p: u32)
        ensures { Writes (joint q p) self.old self.new }
    {
        self.at = crate::put_joint(self.area, self.at, q, p);
    }
}
