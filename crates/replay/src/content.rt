// What stands in a buffer: a content is a count of parts, and the parts one behind the other. A part is how much of the buffer it takes and a pattern,
// which begins anew behind its end: a count of elements, and the elements. With an empty pattern it stays what it is. A content is written the same
// way before a call, where it is lent, and after it, where it is expected; then follows what stands beyond it.
use crate::stream::Stream;

const BYTE_VALUES: u32 = 256;

/// What a buffer has: bytes or numbers, of which each is made and read in its own way.
pub trait Element: Copy + PartialEq + Drop {
    /// The element that a number stands for.
    fn from_number(number: u32) -> Self;

    /// The next element of a pattern.
    fn read(stream: &mut Stream<'_>) -> Self;

    /// Reads over a pattern of so many elements; how many of them there are, for bytes end with the stream.
    fn skip(stream: &mut Stream<'_>, count: usize) -> usize;
}

impl Element for u8 {
    fn from_number(number: u32) -> Self {
        (number % BYTE_VALUES) as u8
    }

    fn read(stream: &mut Stream<'_>) -> Self {
        stream.byte()
    }

    fn skip(stream: &mut Stream<'_>, count: usize) -> usize {
        stream.bytes(count).len()
    }
}

impl Element for u32 {
    fn from_number(number: u32) -> Self {
        number
    }

    fn read(stream: &mut Stream<'_>) -> Self {
        stream.number()
    }

    // What is past the end reads as 0.
    fn skip(stream: &mut Stream<'_>, count: usize) -> usize {
        for _ in 0..count {
            stream.number();
        }
        count
    }
}

/// Writes the content that comes next into a buffer, as far as the buffer goes.
pub fn lend<E: Element>(stream: &mut Stream<'_>, buffer: &mut [E]) {
    let room = buffer.len();
    for_each(stream, room, |i: usize, element: E| {
        if let Some(slot) = buffer.get_mut(i) {
            *slot = element;
        }
    });
}

/// Whether a buffer has the content that comes next, and beyond it what then comes: anything, or one value throughout.
pub fn is_expected<E: Element>(stream: &mut Stream<'_>, buffer: &[E]) -> bool {
    let mut same = true;
    let taken = for_each(stream, buffer.len(), |i: usize, element: E| {
        same = same && buffer.get(i) == Some(&element);
    });
    let Some(number) = stream.expected() else {
        return same;
    };
    let value = E::from_number(number);
    let beyond = buffer.get(taken..).unwrap_or_default();
    same && beyond.iter().all(|element| *element == value)
}

// Calls `f` with each element of the content that comes next, and where in the buffer it stands, up to one behind the `room` that the buffer has; how much of the
// buffer the content takes.
fn for_each<E: Element, F: FnMut(usize, E) + Drop>(
    stream: &mut Stream<'_>,
    room: usize,
    mut f: F,
) -> usize
    requires { (state : F) (i : _) (element : _) → F.pre state i element }
{
    let mut fill: usize = 0;
    for _ in 0..stream.number() {
        let total = stream.number() as usize;
        let left = room.saturating_sub(fill).saturating_add(1);
        for_each_of_part(stream, fill, total.min(left), &mut f);
        fill = fill.saturating_add(total);
    }
    fill
}

// The same for `total` elements of a part, the first of which stands at `start`.
fn for_each_of_part<E: Element, F: FnMut(usize, E) + Drop>(
    stream: &mut Stream<'_>,
    start: usize,
    total: usize,
    mut f: F,
)
    requires { (state : F) (i : _) (element : _) → F.pre state i element }
{
    let size = stream.number() as usize;
    let pattern = *stream;
    let count = E::skip(stream, size);
    if count == 0 {
        return;
    }
    let mut turn = pattern;
    for i in 0..total {
        if i % count == 0 {
            turn = pattern;
        }
        f(start.saturating_add(i), E::read(&mut turn));
    }
}
