// Compiled bytes, as they are lent to be read.
ghost use Rattle.std.specs.Prelude.{◌<◌, length};
ghost use Rattle.compiled.specs.Number.{number_limit};

// The bytes of a compiled sheet: fewer than a number of 32 bits can tell, of which where a content starts is one. What reads styles asks for that and is a
// method. The other readers are lent a slice and a place: as methods they would ask that the bytes are few, which they need not be, and a struct of slice
// and place would be made anew for each place that is read on from.
#[derive(Clone, Copy)]
pub struct SheetBytes<'a> {
    pub bytes: &'a [u8],
    pub ghost few: { length bytes.now < number_limit },
}
