// Lines that go round in their cells: nothing is shifted.
ghost use Rattle.std.specs.Prelude.{◌≡◌, ◌<◌, ◌++◌, length, take};
ghost use Rattle.lines.specs.Laws.{LineLaws};
ghost use Rattle.lines.specs.Lines.{
  Fits,
  waits,
  head_of,
  place_after,
  some_wait,
  empty_line,
  end_of,
  pushed_line,
  pushed_cells,
  first_waiting,
  dropped_line,
  begin_of,
  from_first,
};
ghost use Rattle.lines.specs.Means.{PushMeans, DropMeans};

use super::line::Line;

impl Line {
    // Nothing waits.
    pub fn empty() -> Line
        ensures { result ≡ empty_line }
    {
        Line::default()
    }

    // One more at the end; None, and the cells stay as they are, where the line is full or does not fit them. The
    // laws are those of lines.
    pub fn push<T: Copy>(self, cells: &mut [T], value: T) -> Option<Line>
        ensures line { result ≡ pushed_line (length cells.old) self }
        ensures cells { cells.new ≡ pushed_cells cells.old self value }
        ensures means { Fits cells.old self → PushMeans cells.old cells.new self value result }
        ensures laws { LineLaws T }
    {
        let end = self.end(cells.len())?;
        cells[end] = value;
        Some(Line {
            count: self.count + 1,
            ..self
        })
    }

    // The first that waits; None where nothing waits, or the line does not fit the cells.
    pub fn first<T: Copy>(self, cells: &[T]) -> Option<T>
        ensures value { result ≡ first_waiting cells.now self }
        ensures means { Fits cells.now self → result ≡ head_of (waits cells.now self) }
    {
        if !self.some(cells.len()) {
            return None;
        }
        Some(cells[self.first])
    }

    // The line without its first; None where nothing waits, or the line does not fit the cells.
    pub fn drop_first<T: Copy>(self, cells: &[T]) -> Option<Line>
        ensures line { result ≡ dropped_line (length cells.now) self }
        ensures means { Fits cells.now self → DropMeans cells.now self result }
    {
        if !self.some(cells.len()) {
            return None;
        }
        Some(Line {
            first: place(cells.len(), self.first, 1),
            count: self.count - 1,
        })
    }

    // The part of the cells that begins at the first; empty where nothing waits, or the line does not fit the cells. What
    // waits goes on from its end at the beginning of the cells.
    pub fn waits<'a, T: Copy>(self, cells: &'a [T]) -> &'a [T]
        ensures value { result.now ≡ from_first cells.now self }
        ensures means { Fits cells.now self → waits cells.now self ≡ take self.count (result.now ++ cells.now) }
    {
        let begin = self.begin(cells.len());
        &cells[begin..]
    }

    // Whether it fits so many cells, and something waits.
    fn some(self, cells: usize) -> bool
        ensures { result ≡ some_wait cells self }
    {
        self.first < cells && self.count <= cells && 0 < self.count
    }

    // The place after its last; None where it is full or does not fit.
    fn end(self, cells: usize) -> Option<usize>
        ensures { result ≡ end_of cells self }
    {
        if self.first >= cells || self.count >= cells {
            return None;
        }
        Some(place(cells, self.first, self.count))
    }

    // Where the part begins that is handed on: at the first, or at the end of the cells.
    fn begin(self, cells: usize) -> usize
        ensures { result ≡ begin_of cells self }
    {
        if self.some(cells) { self.first } else { cells }
    }
}

// The place that stands so many places after another, going on at the beginning of the cells.
fn place(cells: usize, from: usize, after: usize) -> usize
    requires { from < cells }
    ensures { result ≡ place_after cells from after }
{
    let left = cells - from;
    if after < left {
        from + after
    } else {
        after - left
    }
}
