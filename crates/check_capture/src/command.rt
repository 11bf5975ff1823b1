// The command line.
use crate::failure::Failure;

// What the command line asks for.
#[derive(Clone, Copy)]
pub enum Command<'a> {
    Help,
    StandardInput,
    File(&'a str),
}

// By the only word on the command line.
impl<'a> TryFrom<&'a str> for Command<'a> {
    type Error = Failure<'a>;

    fn try_from(word: &'a str) -> Result<Command<'a>, Failure<'a>> {
        match word {
            "--help" => Ok(Command::Help),
            "-" => Ok(Command::StandardInput),
            _ if word.starts_with('-') => Err(Failure::UnknownWord(word)),
            _ => Ok(Command::File(word)),
        }
    }
}
