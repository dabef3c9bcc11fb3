// Numbers as S-8 reads them: `1.5` is one number. All else is as the lexer has it, but stands here again: there too a reader handed in would bring
// its clauses along, what it takes and that it stays within the text, which are longer than the bodies.
ghost use Rattle.std.specs.Prelude.{◌≡◌, ◌≤◌, length, IfSome};
ghost use Rattle.lexer.specs.Taken.{taken_answer};
ghost use Rattle.lengths.specs.Number.{unsigned, signed, number};

use lexer::numbers::{parse_decimal, parse_integer, parse_sign};
use lexer::whitespace::skip_optional_whitespace;

// A decimal, or else digits: of `1.5` it takes all.
#[tactic(auto, unfolding(crate::specs::Number::unsigned, lexer::specs::Taken::taken_answer, combinators::specs::Choice::pick, combinators::specs::Choice::is))]
fn parse_unsigned(s: &[u8]) -> Option<usize>
    ensures value { result ≡ taken_answer (unsigned s.now) }
    ensures upper_bound { IfSome result (λ n. n ≤ length s.now) }
{
    parse_decimal(s).or_else(|| {
        let n = parse_integer(s);
        (n > 0).then_some(n)
    })
}

// A sign or none, and a number without one behind it.
fn parse_signed(s: &[u8]) -> Option<usize>
    ensures value { result ≡ taken_answer (signed s.now) }
    ensures upper_bound { IfSome result (λ n. n ≤ length s.now) }
{
    let k = parse_sign(s);
    Some(k + parse_unsigned(&s[k..])?)
}

// White space or none, and a number with a sign or none behind it.
pub fn parse_number(s: &[u8]) -> Option<usize>
    ensures value { result ≡ taken_answer (number s.now) }
    ensures upper_bound { IfSome result (λ n. n ≤ length s.now) }
{
    let w = skip_optional_whitespace(s);
    Some(w + parse_signed(&s[w..])?)
}
