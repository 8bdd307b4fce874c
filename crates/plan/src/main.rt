// The planning program: reads standard input, answers on standard output.
#![tactic(auto)]

use descriptors::Stream;

fn main(rt: HostRuntime) {
    if descriptors::occupy(&rt) {
        let input = Stream::Input(rt.stdin());
        let out = Stream::Output(rt.stdout());
        let err = Stream::Error(rt.stderr());
        plan_command::plan(input, out, err);
    }
}
