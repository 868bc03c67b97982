ghost use Rattle.std.specs.Prelude.{◌+◌, ◌^◌, ◌<◌, length};

// The bytes of a record from the next one on, and that one's offset in the record.
#[derive(Clone, Copy)]
pub struct Reader<'a> {
    pub rest: &'a [u8],
    pub at: usize,
    ghost fits: { at + length rest.now < 2 ^ 64 },
}
