// Reading a line as a command.
ghost use Rattle.std.specs.Prelude.{MatchResult};
ghost use Rattle.lines.specs.Commands.{AsksMake, AsksRow, Reads, ReadsRest};
ghost use Rattle.lines.specs.Faulty.{BehindFails, MemoryFails};
ghost use Rattle.lines.specs.Lines.{words_of};
ghost use Rattle.lines.specs.declared.keyword.CommandWord.TheVariants as first;

use super::command::{Command, MemoryMake};
use super::fault::Fault;
use super::keyword::{CommandWord, MakeWord};
use super::operand::Operand;
use super::operands::{end, hex_or_none, number, number_or, numbers};
use super::scanner::Scanner;
use plan::Row;

// The qwords of a work area, where a line does not say how many.
const WORK: u64 = 258;

// The rest of a line that begins with `memory`.
fn read_make<'a>(words: &mut Scanner<'a>) -> Result<MemoryMake, Fault<'a>>
    ensures { MatchResult result (λ m. AsksMake words.old m) (λ fault. MemoryFails words.old fault) }
{
    let word = words.next().ok_or(Fault::NoMake)?;
    match MakeWord::try_from(word)? {
        MakeWord::Flat => {
            let [n] = numbers(words, [Operand::N])?;
            Ok(MemoryMake::Flat(n))
        }
        MakeWord::Words => {
            let [n] = numbers(words, [Operand::N])?;
            Ok(MemoryMake::Words(n))
        }
        MakeWord::Spliced => {
            let [n, m] = numbers(words, [Operand::N, Operand::M])?;
            Ok(MemoryMake::Spliced(n, m))
        }
    }
}

// The rest of a line that begins with `row`.
fn read_row<'a>(words: &mut Scanner<'a>) -> Result<Row, Fault<'a>>
    ensures { MatchResult result (λ r. AsksRow words.old r) (λ fault. BehindFails first.Row words.old fault) }
{
    let [off, max, file, saved] = numbers(
        words,
        [Operand::Off, Operand::Max, Operand::File, Operand::Saved],
    )?;
    Ok(Row {
        off,
        max,
        file,
        saved: saved as u16,
    })
}

fn read_put<'a>(words: &mut Scanner<'a>) -> Result<Command<'a>, Fault<'a>>
    ensures { ReadsRest first.Put words.old result }
{
    let k = number(words, Operand::K)? as u16;
    let address = number(words, Operand::Address)?;
    let hex = hex_or_none(words)?;
    Ok(Command::Put(k, address, hex))
}

fn read_run<'a>(words: &mut Scanner<'a>) -> Result<Command<'a>, Fault<'a>>
    ensures { ReadsRest first.Run words.old result }
{
    let k = number(words, Operand::K)? as u16;
    let budget = number(words, Operand::Budget)?;
    let work = number_or(words, Operand::Work, WORK)?;
    Ok(Command::Run(k, budget, work))
}

// The rest of a line that begins with this word. (By `?` in each arm: the check covers no closure whose result names a
// lifetime that its argument does not, as one for `map` would be.)
fn read_rest<'a>(words: &mut Scanner<'a>, word: CommandWord) -> Result<Command<'a>, Fault<'a>>
    ensures { ReadsRest word words.old result }
{
    match word {
        CommandWord::Memory => Ok(Command::Memory(read_make(words)?)),
        CommandWord::Row => Ok(Command::Row(read_row(words)?)),
        CommandWord::Lay => {
            let [size] = numbers(words, [Operand::Size])?;
            Ok(Command::Lay(size))
        }
        CommandWord::Make => {
            end(words)?;
            Ok(Command::Make)
        }
        CommandWord::Put => read_put(words),
        CommandWord::Set => {
            let [k, index, word] = numbers(words, [Operand::K, Operand::Index, Operand::Word])?;
            Ok(Command::Set(k as u16, index, word))
        }
        CommandWord::Fetch => {
            let [k, address, length] = numbers(
                words,
                [Operand::K, Operand::Address, Operand::Length],
            )?;
            Ok(Command::Fetch(k as u16, address, length))
        }
        CommandWord::Get => {
            let [k, index] = numbers(words, [Operand::K, Operand::Index])?;
            Ok(Command::Get(k as u16, index))
        }
        CommandWord::Run => read_run(words),
        CommandWord::Last => {
            let [k] = numbers(words, [Operand::K])?;
            Ok(Command::Last(k as u16))
        }
        CommandWord::Release => {
            end(words)?;
            Ok(Command::Release)
        }
    }
}

// The command that a line asks for, or none where the line is passed over.
pub fn read_command(line: &[u8]) -> Result<Option<Command<'_>>, Fault<'_>>
    ensures { Reads (words_of line.now) result }
{
    let mut words = Scanner::new(line);
    // No `?`, since a line with no word is no fault.
    let Some(word) = words.next() else {
        return Ok(None);
    };
    if word.starts_with(b"#") {
        return Ok(None);
    }
    let first = CommandWord::try_from(word)?;
    Ok(Some(read_rest(&mut words, first)?))
}
