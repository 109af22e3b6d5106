// The lines of a script.
use dictionary::Call;
use std::num::ParseIntError;
use std::str::FromStr;

/// The most rows that a script may ask for.
const MOST_ROWS: usize = 64;

/// What a line asks for. A blank line asks for nothing.
#[derive(Clone, Copy)]
pub enum Command {
    New(usize),
    Call(Call<u8>),
    Blank,
}

/// The line is no command.
#[derive(Clone, Copy, Debug, PartialEq, Eq)]
pub struct NotACommand;

impl From<ParseIntError> for NotACommand {
    fn from(_: ParseIntError) -> NotACommand {
        NotACommand
    }
}

/// `new ROWS`, `find X`, `name X`, `key N`, `size`, `capacity` or `asks`, where X is one byte.
impl FromStr for Command {
    type Err = NotACommand;

    fn from_str(line: &str) -> Result<Command, NotACommand> {
        match line.split_once(' ') {
            Some((verb, argument)) => with_argument(verb, argument),
            None => alone(line),
        }
    }
}

fn alone(verb: &str) -> Result<Command, NotACommand> {
    match verb {
        "" => Ok(Command::Blank),
        "size" => Ok(Command::Call(Call::Size)),
        "capacity" => Ok(Command::Call(Call::Capacity)),
        "asks" => Ok(Command::Call(Call::Asks)),
        _ => Err(NotACommand),
    }
}

fn with_argument(verb: &str, argument: &str) -> Result<Command, NotACommand> {
    match verb {
        "new" => Ok(Command::New(rows(argument)?)),
        "find" => Ok(Command::Call(Call::Find(one_byte(argument)?))),
        "name" => Ok(Command::Call(Call::Name(one_byte(argument)?))),
        "key" => Ok(Command::Call(Call::Key(argument.parse()?))),
        _ => Err(NotACommand),
    }
}

fn rows(argument: &str) -> Result<usize, NotACommand> {
    let rows = argument.parse()?;
    if rows <= MOST_ROWS {
        Ok(rows)
    } else {
        Err(NotACommand)
    }
}

fn one_byte(argument: &str) -> Result<u8, NotACommand> {
    match argument.as_bytes() {
        [b] => Ok(*b),
        _ => Err(NotACommand),
    }
}
