// Runs of frames on standard input to the page of their squares on standard output.
#![tactic(auto)]

use pieces::reading;
use pieces::reading::Source;
use pieces::writing::Target;
use reel_stream::run;

fn main(rt: HostRuntime) {
    let mut buffer = reading::large_buffer();
    let mut input = Source {
        input: rt.stdin(),
        errors: rt.stderr(),
    };
    let mut output = Target {
        output: rt.stdout(),
        errors: rt.stderr(),
    };
    run::tell(
        run::run(&mut input, &mut output, &mut buffer),
        &mut rt.stderr(),
    );
}
