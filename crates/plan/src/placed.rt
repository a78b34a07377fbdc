// A row whose window and register file end below 2 ^ 64, and the bytes that it has.
ghost use Rattle.std.specs.Prelude.{◌≡◌, ℕ, ◌+◌, Decides, MatchOption};
ghost use Rattle.plan.specs.Areas.{Addressable, Crosses, EndsWithin, Owns, Shares, Within};

use super::row::Row;
use super::span::Span;

#[derive(Clone, Copy)]
pub(crate) struct Placed {
    row: Row,
    ghost addressable: { Addressable row },
}

impl Placed {
    // The row, where its window and its register file end within the laid size. In 128 bits the sums cannot wrap.
    pub(crate) fn within(row: Row, laid: u64) -> Option<Placed>
        ensures { MatchOption result (EndsWithin row laid → ⊥) (λ p. (p.row ≡ row) × EndsWithin row laid) }
    {
        let inside = u128::from(row.off) + u128::from(row.max) + 1 <= u128::from(laid)
            && u128::from(row.file) + 2064 <= u128::from(laid);
        if inside { Some(Placed { row }) } else { None }
    }

    fn window(self) -> Span
        ensures { (result.from ≡ self.row.off) × (result.end ≡ self.row.off + self.row.max + 1) }
    {
        Span {
            from: self.row.off,
            end: self.row.off + self.row.max + 1,
        }
    }

    fn register_file(self) -> Span
        ensures { (result.from ≡ self.row.file) × (result.end ≡ self.row.file + 2064) }
    {
        Span {
            from: self.row.file,
            end: self.row.file + 2064,
        }
    }

    // Whether the row's window and register file share a byte.
    pub(crate) fn crosses_itself(self) -> bool
        ensures { Decides result (Crosses self.row) }
    {
        self.window().meets(self.register_file())
    }

    // Whether an address of the span belongs to the row.
    fn touches(self, s: Span) -> bool
        ensures { Decides result ((a : ℕ) × (Within s.from s.end a × Owns self.row a)) }
    {
        s.meets(self.window()) || s.meets(self.register_file())
    }

    // Whether two rows share a byte.
    pub(crate) fn share_byte(self, other: Placed) -> bool
        ensures { Decides result (Shares self.row other.row) }
    {
        other.touches(self.window()) || other.touches(self.register_file())
    }
}
