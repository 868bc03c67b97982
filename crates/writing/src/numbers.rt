// Numbers, high byte first, and kinds. Where there is no memory for one, nothing is put. The impls are alike as impls of a
// trait are: no trait has `to_be_bytes`, so none for all numbers can call it.
ghost use Rattle.std.specs.Prelude.{◌≡◌, ◌++◌, OnOk, OnErr};
ghost use Rattle.record_bytes.specs.Kinds.{byte_of};
ghost use Rattle.record_bytes.specs.Numbers.{bytes_of};

use super::written::Written;
use record_bytes::kind::Kind;
use std::alloc::AllocError;

impl Written for u8 {
    ghost bytes = { bytes_of 1 };

    fn put(&self, out: &mut Vec<u8>) -> Result<(), AllocError>
        ensures appended { OnOk result (out.new.items ≡ out.old.items ++ bytes_of 1 self.now) }
        ensures kept { OnErr result (out.new.items ≡ out.old.items) }
    {
        out.extend_from_slice(&[*self])
    }
}

impl Written for u16 {
    ghost bytes = { bytes_of 2 };

    fn put(&self, out: &mut Vec<u8>) -> Result<(), AllocError>
        ensures appended { OnOk result (out.new.items ≡ out.old.items ++ bytes_of 2 self.now) }
        ensures kept { OnErr result (out.new.items ≡ out.old.items) }
    {
        out.extend_from_slice(&u16::to_be_bytes(*self))
    }
}

impl Written for u32 {
    ghost bytes = { bytes_of 4 };

    fn put(&self, out: &mut Vec<u8>) -> Result<(), AllocError>
        ensures appended { OnOk result (out.new.items ≡ out.old.items ++ bytes_of 4 self.now) }
        ensures kept { OnErr result (out.new.items ≡ out.old.items) }
    {
        out.extend_from_slice(&u32::to_be_bytes(*self))
    }
}

impl Written for Kind {
    ghost bytes = { λ kind. bytes_of 1 (byte_of kind) };

    fn put(&self, out: &mut Vec<u8>) -> Result<(), AllocError>
        ensures appended { OnOk result (out.new.items ≡ out.old.items ++ bytes_of 1 (byte_of self.now)) }
        ensures kept { OnErr result (out.new.items ≡ out.old.items) }
    {
        u8::from(*self).put(out)
    }
}
