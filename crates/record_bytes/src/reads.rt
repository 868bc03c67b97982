ghost use Rattle.std.specs.Prelude.{◌≡◌, ◌≤◌, IfNone, IfOk, OnErr};
ghost use Rattle.record_bytes.specs.Reading.{start, end_of, read, closed};
ghost use Rattle.record_bytes.specs.Numbers.{number, ranged, kind_byte};
ghost use Rattle.record_bytes.specs.Answers.{cursor, taken, part, verdict};

use super::fault::Fault;
use super::number::Number;
use super::reader::Reader;

impl<'a> Reader<'a> {
    pub fn new(bytes: &'a [u8]) -> Self
        ensures { cursor result ≡ start bytes.now }
    {
        Reader { rest: bytes, at: 0 }
    }

    // A number; None, and nothing taken, where one of its bytes is missing. Not a fault: by a rule of the project what
    // this answers is taken apart by `let .. else` where it is used.
    pub fn number<T: Number>(&mut self) -> Option<T>
        ensures value { taken T.value result (cursor self.new) ≡ number T.SIZE (cursor self.old) }
        ensures kept { IfNone result (cursor self.new ≡ cursor self.old) }
    {
        let bytes = self.rest.split_off(..T::SIZE)?;
        self.at += T::SIZE;
        T::from_bytes(bytes)
    }

    // The fault of a byte that is missing.
    pub fn missing(&self) -> Fault
        ensures { result ≡ Fault.Length (end_of (cursor self.now)) }
    {
        Fault::Length {
            at: self.at + self.rest.len(),
        }
    }

    // A number from low to high; nothing is taken where it is refused. `kind` and a port's number read ahead likewise: each has
    // a test and a fault of its own, which one function for all would have to be told.
    pub fn number_in<T: Number>(&mut self, low: u32, high: u32) -> Result<T, Fault>
        ensures value { part T.value result (cursor self.new) ≡ ranged T.SIZE low high (cursor self.old) }
        ensures inside { IfOk result (λ n. (low ≤ T.value n) × (T.value n ≤ high)) }
        ensures kept { OnErr result (cursor self.new ≡ cursor self.old) }
    {
        let mut ahead = *self;
        let Some(n) = ahead.number::<T>() else {
            return Err(ahead.missing());
        };
        let inside = (low..=high).contains(&n.into());
        if !inside {
            return Err(Fault::Range { at: self.at });
        }
        *self = ahead;
        Ok(n)
    }

    // The kind of the record, which must be the one that is wanted. Wanted is a byte: a `Kind` would ask more of callers.
    pub fn kind(&mut self, wanted: u8) -> Result<u8, Fault>
        ensures value { part (λ n. n) result (cursor self.new) ≡ kind_byte wanted (cursor self.old) }
        ensures kept { OnErr result (cursor self.new ≡ cursor self.old) }
    {
        let mut ahead = *self;
        let Some(kind) = ahead.number::<u8>() else {
            return Err(ahead.missing());
        };
        if kind != wanted {
            return Err(Fault::Length { at: self.at });
        }
        *self = ahead;
        Ok(kind)
    }

    // The value of a record that ends here; a fault where bytes are left over, or where the record was cut. Each reader of a
    // whole record calls `new` and this itself: a function around what stands between would take that as a closure, and
    // would have to require that it may be called, while public functions require nothing.
    pub fn close<T: Drop>(self, whole: bool, value: T) -> Result<T, Fault>
        ensures { verdict (λ v. v) result ≡ closed whole (read value (cursor self.entry)) }
    {
        if !whole || !self.rest.is_empty() {
            return Err(Fault::Length { at: self.at });
        }
        Ok(value)
    }
}
