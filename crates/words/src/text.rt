// Strings that an argument says to be null or not.
ghost use Rattle.std.specs.Prelude.{◌≡◌};
ghost use Rattle.words.specs.Number.{flag_in};
ghost use Rattle.words.specs.Text.{given};

use crate::number::flag_in;

// The string that a flag and a text are: null where the flag is set, whatever the text.
#[tactic(auto, unfolding(crate::specs::Text::given))]
pub fn given(null: bool, text: &[u8]) -> Option<&[u8]>
    ensures { result ≡ given null text.entry }
{
    if null { None } else { Some(text) }
}

// The same by the word of the flag.
pub fn text_in(null: u32, text: &[u8]) -> Option<&[u8]>
    ensures { result ≡ given (flag_in null) text.entry }
{
    given(flag_in(null), text)
}
