// The answer to a line, and how it is written.
ghost use Rattle.std.specs.Prelude.{◌≡◌, ◌*◌, ◌<◌, ◌≤◌, IfOk, IsAscii, Some, length, take};
ghost use Rattle.answers.specs.Answers.{answer_text, hex_digit_lem, hex_text, output_text};

use machine::{Refusal, RunEnd};
use plan::LayRefusal;
use std::alloc::{AllocError, Global};
use std::{fmt, str};

#[derive(Drop)]
pub enum Answer {
    Size(u64),
    Row(usize),
    Accepted,
    LayRefused(LayRefusal),
    Made,
    Refused(Refusal),
    Fetched(Vec<u8>),
    Word(u64),
    Ended(RunEnd),
    Latest(Option<(u8, u64)>),
    Released,
}

// A digit below 16, in lower case.
fn hex_digit(digit: u8) -> u8
    requires { digit < 16 }
    ensures { result ≡ hex_digit_lem digit }
{
    if digit < 10 {
        b'0' + digit
    } else {
        b'a' - 10 + digit
    }
}

// Puts the digits of the bytes at the start of the room.
fn put_digits(bytes: &[u8], room: &mut [u8])
    requires { 2 * length bytes.now ≤ length room.old }
    ensures digits { take (2 * length bytes.now) room.new ≡ hex_text bytes.now }
    ensures ascii { IsAscii (hex_text bytes.now) }
{
    for (i, &b) in bytes.iter().enumerate() {
        room[2 * i] = hex_digit(b / 16);
        room[2 * i + 1] = hex_digit(b % 16);
    }
}

// Bytes that print as pairs of hexadecimal digits.
#[derive(Clone, Copy)]
struct Hex<'a>(&'a [u8]);

impl fmt::Display for Hex<'_> {
    ghost output = { λ h. Some (hex_text h.0.now) };

    fn fmt<W: fmt::Write>(&self, f: &mut fmt::Formatter<W>) -> fmt::Result {
        // Many bytes at a time, since a call of the writer costs far more than a digit.
        let mut room = [0; 64];
        for bytes in self.0.chunks(32) {
            put_digits(bytes, &mut room);
            let Ok(text) = str::from_utf8(&room[..2 * bytes.len()]) else {
                unreachable!();
            };
            f.write_str(text)?;
        }
        Ok(())
    }
}

impl fmt::Display for Answer {
    ghost output = { λ a. Some (answer_text a) };

    fn fmt<W: fmt::Write>(&self, f: &mut fmt::Formatter<W>) -> fmt::Result {
        match self {
            Answer::Size(n) => write!(f, "{n} bytes"),
            Answer::Row(i) => write!(f, "row {i}"),
            Answer::Accepted => write!(f, "accepted"),
            Answer::LayRefused(e) => {
                write!(
                    f,
                    "refused {} row {} other {}",
                    u16::from(e.ground),
                    e.row,
                    e.other
                )
            }
            Answer::Made => write!(f, "made"),
            Answer::Refused(e) => write!(f, "refused {}", u16::from(*e)),
            Answer::Fetched(bytes) => write!(f, "{}", Hex(bytes.as_slice())),
            Answer::Word(w) => write!(f, "{w}"),
            Answer::Ended(e) => write!(f, "code {} count {}", u8::from(e.end), e.count),
            Answer::Latest(None) => write!(f, "none"),
            Answer::Latest(Some((code, count))) => write!(f, "code {code} count {count}"),
            Answer::Released => write!(f, "released"),
        }
    }
}

impl Answer {
    // The line of output for the line that this answers.
    pub fn written(&self, heap: Global, line: &[u8]) -> Result<Vec<u8>, AllocError>
        ensures { IfOk result (λ v. v.items ≡ output_text line.now self.now) }
    {
        // Room for all but the longest answers, so that memory for the text is asked for once.
        let mut text = String::with_capacity(heap, 64)?;
        write!(text, ": {self}\n")?;
        let mut out = Vec::with_capacity(heap, line.len() + text.len())?;
        out.extend_from_slice(line)?;
        out.extend_from_slice(text.as_bytes())?;
        Ok(out)
    }
}
