// The register bank: a guard over a lent work area, which is wiped when the bank ends.
ghost use Rattle.std.specs.Prelude.{◌≡◌, length, replicate};

// The work area is the lender's, so the clauses name it.
pub struct Bank<'a> {
    pub(crate) words: &'a mut [u64],
    ghost full: { length words.now ≡ 258 },
}

impl Drop for Bank<'_> {
    fn drop(self)
        ensures { self.exit.0.now ≡ replicate 258 0 }
    {
        let Bank { words } = self;
        words.fill(0);
    }
}
