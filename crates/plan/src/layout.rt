// Laying a plan: every row is checked before the plan changes.
ghost use Rattle.std.specs.Prelude.{◌≡◌, ℕ, ◌^◌, ◌<◌, ◌≤◌, length, IfSome, MatchOption, MatchResult};
ghost use Rattle.plan.specs.Areas.{EndsWithin, Shares, row_at};
ghost use Rattle.plan.specs.Grounds.{Applies, Refuses};
ghost use Rattle.plan.specs.Lays.{IsDue, Lays, laid_answer};
ghost use Rattle.plan.specs.declared.ground.Ground.{Ground};

use super::ground::{Ground, LayRefusal};
use super::placed::Placed;
use super::plan::Plan;
use super::row::Row;

// The first earlier row within the laid size that shares a byte with this one.
fn sharer(earlier: &[Row], row: Placed, laid: u64) -> Option<usize>
    ensures shares { MatchOption result ((j : ℕ) → j < length earlier.now → EndsWithin (row_at earlier.now j) laid → Shares row.row (row_at earlier.now j) → ⊥) (λ j. (j < length earlier.now) × Shares row.row (row_at earlier.now j)) }
    ensures first { IfSome result (λ j. (k : ℕ) → k < j → EndsWithin (row_at earlier.now k) laid → Shares row.row (row_at earlier.now k) → ⊥) }
{
    earlier.iter().position(|q| Placed::within(*q, laid).is_some_and(|q| row.share_byte(q)))
}

// The first ground against row i, where none applies at an earlier row.
fn check_row(rows: &[Row], i: usize, row: Row, laid: u64) -> Result<(), LayRefusal>
    requires place { i < length rows.now }
    requires same { row ≡ row_at rows.now i }
    requires few { length rows.now ≤ 16 }
    requires small { laid ≤ 2 ^ 32 }
    requires earlier { (g : Ground) (k : ℕ) → k < i → Applies g rows.now laid k → ⊥ }
    ensures { MatchResult result (λ _. (g : Ground) → Applies g rows.now laid i → ⊥) (λ e. Refuses rows.now laid e) }
{
    let number = i as u16;
    if row.max < 7 {
        return Err(LayRefusal::new(Ground::Short, number, number));
    }
    if row.saved < 1 || row.saved > 256 {
        return Err(LayRefusal::new(Ground::Saved, number, number));
    }
    let placed = Placed::within(row, laid).ok_or(LayRefusal::new(Ground::Outside, number, number))?;
    if placed.crosses_itself() {
        return Err(LayRefusal::new(Ground::Overlap, number, number));
    }
    match sharer(&rows[..i], placed, laid) {
        Some(j) => Err(LayRefusal::new(Ground::Overlap, number, j as u16)),
        None => Ok(()),
    }
}

// Makes the plan of these rows, or refuses and leaves it as it was.
pub fn lay(rows: &[Row], laid_size: u64, plan: &mut Plan) -> Result<(), LayRefusal>
    ensures lays { Lays rows.now laid_size plan.old result plan.new }
    ensures answer { IsDue rows.now laid_size (laid_answer result) }
{
    if rows.is_empty() || rows.len() > 16 {
        return Err(LayRefusal::new(Ground::Rows, 0, 0));
    }
    if laid_size > 0x1_0000_0000 {
        return Err(LayRefusal::new(Ground::Size, 0, 0));
    }
    for (i, row) in rows.iter().enumerate() {
        check_row(rows, i, *row, laid_size)?;
    }
    let mut held = [rows[0]; 16];
    held[..rows.len()].copy_from_slice(rows);
    *plan = Plan::of(held, rows.len() as u16, laid_size);
    Ok(())
}
