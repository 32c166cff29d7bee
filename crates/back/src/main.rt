// Frames on standard input to readings on standard output.
#![tactic(auto)]

use pieces::reading;
use pieces::reading::Source;
use pieces::writing::Target;
use stream::run;
use text_runs::state::Way;

fn main(rt: HostRuntime) {
    let mut buffer = reading::large_buffer();
    let mut input = Source {
        input: rt.stdin(),
        errors: rt.stderr(),
    };
    let mut output = Target {
        output: rt.stdout(),
        errors: rt.stderr(),
    };
    run::tell(
        run::run(Way::Back, &mut input, &mut output, &mut buffer),
        &mut rt.stderr(),
    );
}
