// The second program: one saved form on standard input, the same form or one `ff` line on standard output, as `form_judge` says.
#![tactic(auto)]

use form_judge::Judged;
use program_output::Source;

fn main(rt: HostRuntime) {
    program_input::run(rt.stdin(), rt.stdout(), Source::Form(Judged::Open));
}
