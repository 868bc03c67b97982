ghost use Rattle.std.specs.Prelude.{◌≡◌, ⊤, length, replicate, slice_get, slice_set};
ghost use Rattle.std.specs.Option.{option_map};

use std::alloc::AllocError;

// One thing for each of the 64 ports that a net may have.
pub struct PerPort<T> {
    pub each: [T; 64],
    ghost all_ports: { length each ≡ 64 },
}

// By hand, since no derive copies a ghost field over a type parameter.
impl<T: Copy> Clone for PerPort<T> {
    ghost is_clone = { λ x y. y ≡ x };

    ghost is_infallible = { λ _. ⊤ };

    fn clone(&self) -> Result<Self, AllocError> {
        Ok(*self)
    }
}

impl<T: Copy> Copy for PerPort<T> {}

impl<T: Copy> PerPort<T> {
    // The same for every port.
    pub fn all(same: T) -> Self
        ensures { result.each ≡ replicate 64 same }
    {
        PerPort { each: [same; 64] }
    }

    // That of a port; None past the last one.
    pub fn get(&self, port: u8) -> Option<&T>
        ensures { option_map (λ one. one.now) result ≡ slice_get self.now.each port }
    {
        self.each.get(usize::from(port))
    }

    // Past the last port nothing changes. A test and an index, since nothing is known of what `get_mut` of a slice lends.
    pub fn put(&mut self, port: u8, one: T)
        ensures { self.new.each ≡ slice_set self.old.each port one }
    {
        let place = usize::from(port);
        if place < 64 {
            self.each[place] = one;
        }
    }
}
