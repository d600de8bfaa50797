// What the programs say on standard error. Whether it is taken they don't ask.

use std::io;

// Says words.
pub fn say(rt: &HostRuntime, words: &[u8]) {
    let _ = rt.stderr().write_all(words);
}

// What the system says of an error, without the number that std adds.
fn without_number(text: &str) -> &str {
    match text.split_once(" (os error ") {
        Some((said, _)) => said,
        None => text,
    }
}

// Says what went wrong, and why.
pub fn fail(rt: &HostRuntime, what: &[u8], error: io::Error) {
    say(rt, what);
    let _ = match error.to_string(rt.alloc()) {
        Ok(text) => eprintln!(rt; ": {}", without_number(&text)),
        Err(_) => eprintln!(rt; ": {error}"),
    };
}
