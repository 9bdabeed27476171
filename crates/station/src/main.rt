// The station program: each line of standard input is answered on standard output, as `calls::answer` says.
#![tactic(auto)]

use program_output::Source;

fn main(rt: HostRuntime) {
    program_input::run(rt.stdin(), rt.stdout(), Source::Session);
}
