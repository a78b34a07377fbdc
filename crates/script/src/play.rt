// Playing a whole script: each line is read, performed and written with its answer.
ghost use Rattle.std.specs.Prelude.{◌≡◌, ◌⊎◌};
ghost use Rattle.lines.specs.Lines.{words_of};
ghost use Rattle.script.specs.Playing.{Plays};
ghost use Rattle.script.specs.declared.play.Stop.TheVariants.{Unread, Unperformed};

use super::session::{Session, Trouble};
use answers::Answer;
use lines::{Fault, read_command};
use std::alloc::Global;
use std::io;
use std::io::{BufRead, BufReader, BufWriter, Write};
use std::process::ExitCode;

// Why a script ends before its last line.
#[derive(Clone, Copy)]
pub enum Stop<'a> {
    Unread(Fault<'a>),
    Unperformed(Trouble),
}

impl<'a> From<Fault<'a>> for Stop<'a> {
    ghost from_gives = { λ fault stop. stop ≡ Unread fault };

    fn from(e: Fault<'a>) -> Stop<'a> {
        Stop::Unread(e)
    }
}

impl<'a> From<Trouble> for Stop<'a> {
    ghost from_gives = { λ trouble stop. stop ≡ Unperformed trouble };

    fn from(e: Trouble) -> Stop<'a> {
        Stop::Unperformed(e)
    }
}

// Performs the command that the line asks for.
pub fn perform_line<'a>(
    session: &mut Session,
    heap: Global,
    line: &'a [u8],
) -> Result<Option<Answer>, Stop<'a>>
    ensures { Plays (words_of line.now) session.old result session.new }
{
    // No `?` for the option, since a line that is passed over is no fault.
    let Some(command) = read_command(line)? else {
        return Ok(None);
    };
    Ok(Some(session.perform(heap, command)?))
}

// A line as it was read, without the line feed, or carriage return and line feed, that ends it.
fn without_ending(line: &[u8]) -> &[u8] {
    match line {
        [text @ .., b'\r', b'\n'] => text,
        [text @ .., b'\n'] => text,
        text => text,
    }
}

fn report(rt: &HostRuntime, number: u64, stop: Stop<'_>) -> io::Result<()> {
    let mut out = rt.stderr();
    write!(out, "replay: line {number}: ")?;
    match stop {
        Stop::Unread(fault) => out.write_all(fault.message(rt.alloc())?.as_slice())?,
        Stop::Unperformed(trouble) => write!(out, "{trouble}")?,
    }
    writeln!(out)?;
    Err(io::Error::other("the script stops"))
}

// Plays the script on standard input to its end. At a line that cannot be read or performed it writes what is wrong to
// standard error and returns an error.
pub fn play_script(rt: &HostRuntime) -> io::Result<()> {
    let heap = rt.alloc();
    let mut input = BufReader::new(heap, rt.stdin())?;
    let mut output = BufWriter::new(heap, rt.stdout())?;
    let mut session = Session::new(heap);
    let mut line = Vec::new(heap);
    // By `read_until`, which keeps how a line ends: a carriage return belongs to the ending only before a line feed.
    for number in 1..u64::MAX {
        line.clear();
        if input.read_until(b'\n', &mut line)? == 0 {
            break;
        }
        let text = without_ending(line.as_slice());
        // A match, since each of the three goes on in its own way.
        match perform_line(&mut session, heap, text) {
            Ok(Some(answer)) => output.write_all(answer.written(heap, text)?.as_slice())?,
            Ok(None) => {}
            Err(stop) => {
                output.flush()?;
                return report(rt, number, stop);
            }
        }
    }
    output.flush()
}

// Plays the script on standard input, for a program that ends with its status: an error is a status there and no text,
// since what stops a line is written by then.
pub fn play_stdin(rt: &HostRuntime) -> ExitCode
    ensures { (result ≡ ExitCode.SUCCESS) ⊎ (result ≡ ExitCode.FAILURE) }
{
    play_script(rt).map_or(ExitCode::FAILURE, |()| ExitCode::SUCCESS)
}
