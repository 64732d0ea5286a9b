//! Marks on the slots of a device, over a lent row of bytes. How a mark lies in the row is known here alone.
#![tactic(auto)]

ghost use Rattle.std.specs.Prelude.{◌≡◌, ℕ, ◌-◌, length};
ghost use Rattle.marks.specs.Rows.{room_of, is_marked, with_mark, unmarked, first_of, MarkLaws};

/// How many bytes the marks of so many slots take.
#[tactic(auto, unfolding(crate::specs::Rows::room_of))]
pub fn room(slots: usize) -> usize
    ensures { result ≡ room_of slots }
{
    slots // a byte for each
}

// A mark is a byte, and no bool: marks lie in a lent row of bytes, and zeros clear it as they clear every lent row.
/// Marks a slot. A slot that the row has no room for stays as it is.
#[tactic(auto, using(crate::proofs::Laws::mark_laws), unfolding(crate::specs::Rows::with_mark))]
pub fn mark(row: &mut [u8], slot: usize)
    ensures is { row.new ≡ with_mark row.old slot }
    ensures laws { MarkLaws }
{
    if slot < row.len() {
        row[slot] = 1;
    }
}

/// Whether a slot is marked.
#[tactic(auto, using(crate::proofs::Laws::mark_laws), unfolding(crate::specs::Rows::is_marked))]
pub fn is_marked(row: &[u8], slot: usize) -> bool
    ensures is { result ≡ is_marked row.now slot }
    ensures laws { MarkLaws }
{
    slot < row.len() && row[slot] != 0
}

/// The lowest slot without a mark, from a slot on and before an end.
pub fn first_unmarked(row: &[u8], from: usize, end: usize) -> Option<usize>
    ensures { result ≡ first_of (unmarked row.now from (end - from)) }
{
    (from..end).find(|slot| !is_marked(row, *slot))
}

/// How many slots have no mark, from a slot on and before an end.
pub fn count_unmarked(row: &[u8], from: usize, end: usize) -> usize
    ensures { result ≡ length (unmarked row.now from (end - from)) }
{
    (from..end).filter(|slot| !is_marked(row, *slot)).count()
}
