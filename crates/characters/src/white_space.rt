// The property White_Space of the Unicode Character Database (PropList.txt).
ghost use Rattle.std.specs.Prelude.{◌≡◌};
ghost use Rattle.characters.specs.WhiteSpace.{is_white_space};

// Whether the code point `v` has it. Told a number and no character: it says something of any number, as its definition does. The ranges are
// those of PropList.txt: for `char::is_whitespace` the number would have to be made a character first, and one that is none told apart.
#[tactic(auto, using(crate::proofs::WhiteSpaces::by_ranges), unfolding(crate::specs::WhiteSpace::in_ranges, combinators::specs::Choice::or, combinators::specs::Choice::within, combinators::specs::Choice::and))]
pub fn is_white_space(v: u32) -> bool
    ensures { result ≡ is_white_space v }
{
    matches!(
        v,
        0x09..=0x0d | 0x20 | 0x85 | 0xa0 | 0x1680 | 0x2000..=0x200a | 0x2028 | 0x2029 | 0x202f | 0x205f | 0x3000
    )
}
