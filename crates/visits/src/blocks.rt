// What a block says of its selector.
ghost use Rattle.std.specs.Prelude.{◌≤◌};
ghost use Rattle.compiled.specs.Sheet.{compiled_limit};

// No place of a selector or of a segment: what the bytes of a part have where there is none. A number, no `None` of an `Option`: a block goes from part to part
// with its places as they are, and only who goes on to the next selector asks whether there is one.
pub const NO_PLACE: usize = 0;

// The block of a selector without its flags: the place of the selector, that of the next one that has a style, and that of the segment that is awaited.
#[derive(Clone, Copy, PartialEq, Eq)]
pub struct Block {
    pub place: usize,
    pub next: usize,
    pub awaited: usize,
    pub ghost near: { place ≤ compiled_limit },
}

// A block whose leftmost compound has a mark, with the count of its tests.
#[derive(Clone, Copy, PartialEq, Eq)]
pub struct Marked {
    pub block: Block,
    pub tests: usize,
}
