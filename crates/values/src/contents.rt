// Contents: the length of the strings of a value.
ghost use Rattle.std.specs.Prelude.{◌≡◌};
ghost use Rattle.values.specs.Property.{content_of};
ghost use Rattle.values.specs.Tokens.{value_tokens};
ghost use Rattle.values.specs.ValueAnswer.{ContentRoom, content_answer};

use crate::tokens::Tokens;
use lexer::rows::STRING;

// The length of the strings that the tokens of a value are; none where one is no string. What is asked is no fact of all `Tokens`: it would be
// owed wherever a part of them is taken, and only contents are added up.
pub fn parse_content(tokens: Tokens) -> Option<usize>
    requires { ContentRoom (value_tokens tokens) }
    ensures { result ≡ content_answer (content_of (value_tokens tokens.entry)) }
{
    let mut length = 0;
    for i in 0..tokens.count() {
        if !tokens.is_kind(i, STRING) {
            return None;
        }
        length += tokens.text(i).len();
    }
    Some(length)
}
