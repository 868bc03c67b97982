// Queues with no packet.
ghost use Rattle.std.specs.Prelude.{◌≡◌, ℕ, ◌+◌, ◌<◌, [], replicate};
ghost use Rattle.queues.specs.Held.{Holds, next_at, size};

use super::cell::Cell;
use super::queues_of::Queues;

impl Queues {
    // No packet waits in any class, and all cells of the lent memory are free. Cells past the first 2^32 - 1 are not used.
    pub fn empty(cells: &mut [Cell]) -> Self
        ensures { Holds result cells.new (replicate 8 []) }
    {
        let count = link_all(cells);
        Queues {
            free_count: count,
            ..Queues::default()
        }
    }
}

// Each cell gets the one after it as its next. How many cells there are, counted in the 32 bits of a link, at the largest
// of which it stays.
fn link_all(cells: &mut [Cell]) -> u32
    ensures counted { result ≡ size cells.new }
    ensures linked { (k : ℕ) → k < result → next_at cells.new k ≡ k + 1 }
{
    // counted beside the loop: of what an adapter of `iter_mut` wrote nothing is known
    let mut count: u32 = 0;
    for cell in cells.iter_mut() {
        count = count.saturating_add(1);
        cell.next = count;
    }
    count
}
