// The fixed words of the format.
ghost use Rattle.lines.specs.Keywords.{NamesCommand, NamesMake};

use super::fault::Fault;

// The first word of a line.
#[derive(Clone, Copy, PartialEq, Eq, Debug)]
pub(crate) enum CommandWord {
    Memory,
    Row,
    Lay,
    Make,
    Put,
    Set,
    Fetch,
    Get,
    Run,
    Last,
    Release,
}

impl<'a> TryFrom<&'a [u8]> for CommandWord {
    type Error = Fault<'a>;

    ghost try_from_gives = { NamesCommand };

    fn try_from(word: &'a [u8]) -> Result<CommandWord, Fault<'a>> {
        match word {
            b"memory" => Ok(CommandWord::Memory),
            b"row" => Ok(CommandWord::Row),
            b"lay" => Ok(CommandWord::Lay),
            b"make" => Ok(CommandWord::Make),
            b"put" => Ok(CommandWord::Put),
            b"set" => Ok(CommandWord::Set),
            b"fetch" => Ok(CommandWord::Fetch),
            b"get" => Ok(CommandWord::Get),
            b"run" => Ok(CommandWord::Run),
            b"last" => Ok(CommandWord::Last),
            b"release" => Ok(CommandWord::Release),
            _ => Err(Fault::NoSuchCommand(word)),
        }
    }
}

// The word behind `memory`.
#[derive(Clone, Copy, PartialEq, Eq, Debug)]
pub(crate) enum MakeWord {
    Flat,
    Words,
    Spliced,
}

impl<'a> TryFrom<&'a [u8]> for MakeWord {
    type Error = Fault<'a>;

    ghost try_from_gives = { NamesMake };

    fn try_from(word: &'a [u8]) -> Result<MakeWord, Fault<'a>> {
        match word {
            b"flat" => Ok(MakeWord::Flat),
            b"words" => Ok(MakeWord::Words),
            b"spliced" => Ok(MakeWord::Spliced),
            _ => Err(Fault::NoSuchMake(word)),
        }
    }
}
