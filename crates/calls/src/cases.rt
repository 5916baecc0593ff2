// Cases: the lines of a text, made as calls one after the other on one planner, which begins closed. A line is a call or a check as `calls` prints
// it, up to its colon; the bytes of a plan are in hex with blanks anywhere. A line with a small letter sets a number in the planner that is kept, and
// is answered by nothing: `memory` says which. A line that begins with # is printed as it is, and an empty one is passed over.
use super::Host;

fn check(host: &Host, digits: &[u8]) {
    let mut buffer = [0; 2048];
    host.check(text::bytes_in(digits, &mut buffer));
}

fn run_line(host: &mut Host, line: &[u8]) {
    match line {
        [] => {}
        [b'#', ..] => {
            let _ = host.rt.write_all(line);
            let _ = host.rt.write_all(b"\n");
        }
        [b'C', digits @ ..] => check(host, digits),
        _ => host.run_line(line),
    }
}

// The text is standard input. What stands behind its last line's end is a line too, or empty.
pub fn run_standard_input(rt: &HostRuntime) {
    let mut buffer = [0; 65536];
    let mut host = Host::new(rt);
    for line in text::input(&mut buffer).split(|c| *c == b'\n') {
        run_line(&mut host, line);
    }
}
