// How specific a selector in compiled bytes is: what each of its components adds.
ghost use Rattle.std.specs.Prelude.{◌≡◌, List, ℕ};
ghost use Rattle.matching.specs.Specificity.{added};
ghost use Rattle.compiled.specs.Component.{component_in};
ghost use Rattle.stepping.specs.Reading.{weight_at, weights_at};

use cascade::specificity::Specificity;
use compiled::components::{MARK_SIZE, Written, read_component, short_size};
use compiled::places::{Fault, Read};
use matching::components::{name_weight, with_name};

// What a component adds, by what its bytes say.
fn written_weight(written: Written) -> Specificity
    ensures { (code : List ℕ) → result ≡ added (component_in code written) }
{
    match written {
        Written::Mark(_) => Specificity::NONE,
        Written::Name(kind, _) => name_weight(kind),
        Written::Numbers(_, _) | Written::Names(_, _) => Specificity::new(0, 1, 0),
    }
}

// What the component at `at` adds, of whatever length.
fn read_long_weight(compiled: &[u8], at: usize) -> Result<Read<Specificity>, Fault>
    ensures { result ≡ weight_at compiled.now at }
{
    Ok(read_component(compiled, at)?.map(written_weight))
}

// How specific the selector of `count` components from `at` on is, with the place behind them. Components differ in size, so the count is no length.
pub fn read_weights(compiled: &[u8], at: usize, count: u32) -> Result<Read<Specificity>, Fault>
    ensures { result ≡ weights_at compiled.now count at }
{
    let mut value = Specificity::NONE;
    let mut next = at;
    for _ in 0..count {
        match short_size(compiled, next) {
            Some(MARK_SIZE) => next += MARK_SIZE,
            Some(size) => {
                value = with_name(value, u32::from(compiled[next]));
                next += size;
            }
            None => {
                let weight = read_long_weight(compiled, next)?;
                value = value + weight.value;
                next = weight.next;
            }
        }
    }
    Ok(Read { next, value })
}
