//! Tables of flags: one word of bits a row.
ghost use Rattle.std.specs.Prelude.{◌≡◌, ℕ, ◌<◌, ◌≤◌, Bool, true, false, not, ◌&&◌, ◌||◌, nat_eq};
ghost use Rattle.std.specs.Prelude.{length, MatchOption};
ghost use Rattle.workflow_schema.specs.Tables.{is_set, table_has, leads};
ghost use Rattle.workflow_schema.specs.declared.table.TheConstants.{WORD_BITS};

use wf_names::StepId;

/// How many flags a row has.
pub(crate) const WORD_BITS: usize = 64;

/// Whether a word has a bit; none from the word's end on.
pub(crate) fn has_bit(word: u64, bit: u8) -> bool
    ensures { result ≡ is_set word bit }
{
    (bit as usize) < WORD_BITS && word >> bit & 1 == 1
}

/// Whether a table has a flag; there is none past its end.
pub(crate) fn has_flag(rows: &[u64], row: usize, bit: u8) -> bool
    ensures { result ≡ table_has rows.now row bit }
{
    row < rows.len() && has_bit(rows[row], bit)
}

/// Sets a flag.
pub(crate) fn set_flag(rows: &mut [u64], row: usize, bit: u8)
    requires row_in { row < length rows.old }
    requires bit_in { bit < WORD_BITS }
    ensures { (a b : ℕ) → table_has rows.new a b
        ≡ ((nat_eq a row && nat_eq b bit) || table_has rows.old a b) }
{
    rows[row] |= 1 << bit;
}

/// Clears a flag.
pub(crate) fn clear_flag(rows: &mut [u64], row: usize, bit: u8)
    requires row_in { row < length rows.old }
    requires bit_in { bit < WORD_BITS }
    ensures { (a b : ℕ) → table_has rows.new a b
        ≡ (not (nat_eq a row && nat_eq b bit) && table_has rows.old a b) }
{
    rows[row] &= !(1 << bit);
}

// A row with the flags of `through` too, where it has the flag `k`.
fn joined(row: u64, k: u8, through: u64) -> u64
    ensures { (b : ℕ) → is_set result b ≡ (is_set row b || (is_set row k && is_set through b)) }
{
    if has_bit(row, k) { row | through } else { row }
}

/// Adds all flags of row `k` to each row that has the flag `k`.
pub(crate) fn join_through(rows: &mut [u64], k: usize)
    requires k_in { k < length rows.old }
    requires few { length rows.old ≤ WORD_BITS }
    ensures { (a b : ℕ) → table_has rows.new a b
        ≡ (table_has rows.old a b || (table_has rows.old a k && table_has rows.old k b)) }
{
    let through = rows[k];
    'rows: for row in rows.iter_mut() {
        *row = joined(*row, k as u8, through);
    }
}

/// Closes a table of direct successors: then row `a` has the flag `b` where a chain leads from `a`
/// to `b`.
pub(crate) fn close(rows: &mut [u64])
    requires { length rows.old ≤ WORD_BITS }
    ensures { (a b : ℕ) → table_has rows.new a b
        ≡ leads (length rows.old) (table_has rows.old) a b }
{
    'steps: for k in 0..rows.len() {
        join_through(rows, k);
    }
}

/// The least row that has its own flag.
pub(crate) fn first_own_flag(rows: &[u64]) -> Option<StepId>
    requires { length rows.now ≤ WORD_BITS }
    ensures { MatchOption result ((a : ℕ) → table_has rows.now a a ≡ false)
        (λ s. (table_has rows.now s s ≡ true)
        × ((a : ℕ) → a < s → table_has rows.now a a ≡ false)) }
{
    'rows: for row in 0..rows.len() {
        if has_flag(rows, row, row as u8) {
            return Some(StepId(row as u8));
        }
    }
    None
}
