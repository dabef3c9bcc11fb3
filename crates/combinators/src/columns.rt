// What a row says of a token or a component.
ghost use Rattle.std.specs.Prelude.{◌≡◌};

// A kind, and its two numbers. What they are depends on the kind, so they have no names.
#[derive(Clone, Copy)]
pub struct Columns {
    pub kind: u32,
    pub first: usize,
    pub second: usize,
}

impl Columns {
    pub fn new(kind: u32, first: usize, second: usize) -> Columns
        ensures { result ≡ record { kind = kind; first = first; second = second } }
    {
        Columns {
            kind,
            first,
            second,
        }
    }
}
