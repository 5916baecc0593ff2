// Lines on standard error.
use std::fmt;
use std::fmt::{Display, Formatter, InlineText};
use std::io::Error;

// What something is, whose name may be any bytes, and what is wrong with it. Where this cannot be written, nothing is left to be said.
pub fn complain<D: Display + Drop>(rt: HostRuntime, subject: &[u8], what: D) {
    let errors = rt.stderr();
    let _ = errors.write_all(b"accept: ");
    let _ = errors.write_all(subject);
    let _ = errors.println(format_args!(": {what}"));
}

// The system's words for an error, without the number that std puts behind them.
#[derive(Clone, Copy)]
pub struct SystemWords(pub Error);

impl Display for SystemWords {
    fn fmt<W: fmt::Write>(&self, f: &mut Formatter<W>) -> fmt::Result {
        let text = InlineText::<512>::of(self.0);
        match text.as_str().split_once(" (os error ") {
            Some((words, _)) => f.write_str(words),
            None => f.write_str(text.as_str()),
        }
    }
}
