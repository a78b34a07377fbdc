// Plays the script of the limits that `emulator/limits` puts together; what it must write is the second emulator's answers.
#![tactic(auto)]

use std::process::ExitCode;

fn main(rt: HostRuntime) -> ExitCode {
    script::play_stdin(&rt)
}
