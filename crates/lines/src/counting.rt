// The ticks of sending that wait, counted beside the line.
ghost use Rattle.std.specs.Prelude.{◌≡◌, List, length};
ghost use Rattle.lines.specs.Lines.{Fits};
ghost use Rattle.lines.specs.Ticks.{
  Counts,
  no_ticks,
  counted_push,
  counted_cells,
  counted_drop,
  PushCounts,
  DropCounts,
};

use super::counted::Counted;
use super::packet::Packet;

impl Counted {
    // Nothing waits.
    pub fn empty() -> Counted
        ensures value { result ≡ no_ticks }
        ensures counts { (cells : List Packet) → Counts cells result }
    {
        Counted::default()
    }

    // One more packet at the end; None, and the cells stay as they are, where the line is full or does not fit them, or
    // the ticks would pass 64 bits. That the cells hold what is counted is a premise, since they are lent to each call.
    pub fn push(self, cells: &mut [Packet], packet: Packet) -> Option<Counted>
        ensures value { result ≡ counted_push (length cells.old) self packet }
        ensures cells { cells.new ≡ counted_cells cells.old self packet }
        ensures means { Fits cells.old self.line → Counts cells.old self → PushCounts cells.old cells.new self packet result }
    {
        let ticks = self.ticks.checked_add(u64::from(packet.length))?;
        let line = self.line.push(cells, packet)?;
        Some(Counted { line, ticks })
    }

    // The line without its first packet; None where nothing waits, or the line does not fit the cells. The premise is that of
    // `push`.
    pub fn drop_first(self, cells: &[Packet]) -> Option<Counted>
        ensures value { result ≡ counted_drop cells.now self }
        ensures means { Fits cells.now self.line → Counts cells.now self → DropCounts cells.now self result }
    {
        let first = self.line.first(cells)?;
        let line = self.line.drop_first(cells)?;
        Some(Counted {
            line,
            ticks: self.ticks.saturating_sub(u64::from(first.length)),
        })
    }
}
