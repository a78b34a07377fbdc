// Plays the script on standard input.
#![tactic(auto)]

use std::process::ExitCode;

fn main(rt: HostRuntime) -> ExitCode {
    script::play_stdin(&rt)
}
