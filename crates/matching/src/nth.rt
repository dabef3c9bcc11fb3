// nth-child(an+b), on signed numbers of 64 bits, in which the sums are exact.
ghost use Rattle.std.specs.Prelude.{◌≡◌, ◌≤◌, ◌^◌, nat_abs};
ghost use Rattle.syntax.specs.Signed.{signed_of};
ghost use Rattle.matching.specs.Nth.{Small, nth_matches};

// Whether `idx` is a·n + b for some n of 0 or more. (A cast: the library's `try_from` would answer an error too, which cannot come.)
pub fn nth(a: i64, b: i64, idx: usize) -> bool
    requires { Small a b idx }
    ensures { result ≡ nth_matches a b idx }
{
    let offset = idx as i64 - b;
    if a == 0 {
        offset == 0
    } else {
        offset % a == 0 && offset / a >= 0
    }
}

// A number with a sign as rows and the compiled sheet have it: v as 2v, negative as -2v-1.
pub fn signed_of(v: u32) -> i64
    ensures value { result ≡ signed_of v }
    ensures result_bound { nat_abs result ≤ 2 ^ 31 }
{
    let half = i64::from(v / 2);
    if v % 2 == 0 { half } else { -1 - half }
}

// Whether an nth-child of two numbers, as rows and the compiled sheet have them, holds of a place among siblings.
pub fn nth_passes(first: u32, second: u32, place: usize) -> bool
    requires { place ≤ 2 ^ 62 }
    ensures { result ≡ nth_matches (signed_of first) (signed_of second) place }
{
    nth(signed_of(first), signed_of(second), place)
}
