// Whether bytes passed the end of a store: what is written behind them changes nothing, so a loop that writes may end there. Selectors, rules and style
// rows have such a loop each: one for all would be told how one is written and passed over, by a closure that holds the writer, of which its contract and
// theirs would have to speak.
ghost use Rattle.std.specs.Prelude.{◌≡◌};
ghost use Rattle.compiler.specs.Writing.{past};

// How far a fill stands above the length of its store once bytes passed the end.
const FILL_ABOVE_LENGTH: usize = 1;

// Whether they did, by the length and the fill: the fill stands above the length then.
pub fn is_past(length: usize, fill: usize) -> bool
    ensures { result ≡ past length fill }
{
    fill > length && fill - length == FILL_ABOVE_LENGTH
}
