// The words of a bank.
ghost use Rattle.std.specs.Prelude.{◌≡◌, length, slice_index, slice_set};
ghost use Rattle.bank.specs.Banks.{words_of, lender};
ghost use Rattle.bank.specs.Registers.{register_index};

use super::guard::Bank;
use super::register::Register;

impl<'a> Bank<'a> {
    // A bank on a work area of 258 words, with the words that stand there. Callers lend a slice, so each function that takes
    // one in asks for its length.
    pub fn open(words: &'a mut [u64]) -> Bank<'a>
        requires { length words.old ≡ 258 }
        ensures same { words_of result ≡ words.old }
        ensures lent { lender result ≡ words.entry.ghost_name }
    {
        Bank { words }
    }
}

impl Bank<'_> {
    pub fn get(&self, register: Register) -> u64
        ensures { result ≡ slice_index (words_of self.now) (register_index register) }
    {
        self.words[register.index()]
    }

    pub fn set(&mut self, register: Register, value: u64)
        ensures words { words_of self.new ≡ slice_set (words_of self.old) (register_index register) value }
        ensures lent { lender self.new ≡ lender self.old }
    {
        self.words[register.index()] = value;
    }

    // All words, in the order of the registers.
    pub fn words(&self) -> &[u64]
        ensures { result.now ≡ words_of self.now }
    {
        self.words
    }
}
