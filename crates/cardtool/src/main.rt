// The command line tool: `cardtool` demonstrates, `cardtool inspect FILE` inspects an image file.
// Where it could not do what it was asked, it ends with status 1.
#![tactic(auto)]

use std::process::ExitCode;
use tool::command::run;

fn main(rt: HostRuntime) -> ExitCode {
    match run(&rt) {
        Ok(_) => ExitCode::SUCCESS,
        Err(_) => ExitCode::FAILURE,
    }
}
