ghost use Rattle.std.specs.Prelude.{◌≡◌, ◌++◌, ℕ, List, length, take, IfOk, OnOk, OnErr};
ghost use Rattle.std.specs.List.{flat_map};

use std::alloc::{AllocError, Global};

// What stands in a record, or is one, by its bytes.
pub trait Written {
    ghost bytes: { Self → List ℕ };

    // Puts the bytes behind those that are there. Where memory ends, what was there stays in front, and behind it stand the
    // first of the bytes.
    fn put(&self, out: &mut Vec<u8>) -> Result<(), AllocError>
        ensures appended { OnOk result (out.new.items ≡ out.old.items ++ bytes self.now) }
        ensures kept { OnErr result (take (length out.old.items) out.new.items ≡ out.old.items) }
        ensures begun { OnErr result (out.new.items ≡ take (length out.new.items) (out.old.items ++ bytes self.now)) };
}

pub fn write<T: Written>(heap: Global, value: &T) -> Result<Vec<u8>, AllocError>
    ensures { IfOk result (λ v. v.items ≡ T.bytes value.now) }
{
    let mut out = Vec::new(heap);
    value.put(&mut out)?;
    Ok(out)
}

// Puts values one behind the other.
#[tactic(auto, using(crate::proofs::Fronts::shorter_front))]
pub(crate) fn put_all<T: Written>(values: &[T], out: &mut Vec<u8>) -> Result<(), AllocError>
    ensures appended { OnOk result (out.new.items ≡ out.old.items ++ flat_map T.bytes values.now) }
    ensures kept { OnErr result (take (length out.old.items) out.new.items ≡ out.old.items) }
    ensures begun { OnErr result (out.new.items ≡ take (length out.new.items) (out.old.items ++ flat_map T.bytes values.now)) }
{
    for value in values {
        value.put(out)?;
    }
    Ok(())
}

#[cfg(test)]
mod tests {
    use super::*;
    use flows::flow::Flow;
    use records::record::Ticks;

    #[test]
    fn writes_ticks_and_a_flow(rt: HostRuntime) {
        let ticks = Ticks { count: 66_051 };
        let bytes = write(rt.alloc(), &ticks);
        let want = [4, 0, 1, 2, 3];
        assert!(rt; bytes.is_ok_and(|bytes| bytes.as_slice() == want.as_slice()));

        let mut road = [0; 16];
        road[0] = 9;
        road[1] = 63;
        let flow = Flow {
            class: 7,
            longest: 200,
            burst: 1_000,
            rate: 1_000_000,
            deadline: 258,
            road,
            hops: 2,
        };
        let bytes = write(rt.alloc(), &flow);
        let want = [1, 7, 200, 3, 232, 0, 15, 66, 64, 0, 0, 1, 2, 2, 9, 63];
        assert!(rt; bytes.is_ok_and(|bytes| bytes.as_slice() == want.as_slice()));
    }
}
