// What is lent to the writers of the compiler.

// Rows of numbers, and the store in which their texts lie.
#[derive(Clone, Copy)]
pub struct Rows<'a> {
    pub numbers: &'a [u32],
    pub texts: &'a [u8],
}

// What a rule gives each of its selectors: its origin, and its styles, which are the first `count` rows. In chunks cut to them the count would be their
// length, and only a clause would say that it is a number of 32 bits, as it is written.
#[derive(Clone, Copy)]
pub struct Given<'a> {
    pub origin: u32,
    pub styles: Rows<'a>,
    pub count: u32,
}
