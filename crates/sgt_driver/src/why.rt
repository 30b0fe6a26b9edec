//! What a text looks like that is not what was wanted, and what to type to learn more, told behind a no.

use crate::devices::Steady;
use crate::host::Host;
use crate::shell::ShellWord;
use crate::streams::Streams;
use sgt_line::{CommandName, names_rule};
use sgt_status::LineName;
use std::io::Read;

// How the answer on a line that can't be read begins.
const UNREADABLE: &[u8] = b"! L";

// What a text looks like that is not what the command reads.
#[derive(Clone, Copy)]
enum Look {
    Compressed,
    Wide,
    History,
    Events,
    Answer,
    Bundle,
    Logs,
    BlankEnd,
}

// A member that events of sites have, and histories don't.
const SITE: &[u8] = b"\"site\":";

// Whether the text, of which these are the first bytes, looks like events of sites.
fn is_events(text: &[u8]) -> bool {
    for at in 0..text.len() {
        if text.get(at..).unwrap_or(&[]).starts_with(SITE) {
            return text.starts_with(b"{");
        }
    }
    false
}

// Whether it begins as an object or a list of JSON does, and not as a certificate.
fn is_history(text: &[u8]) -> bool {
    let is_json = text.starts_with(b"{") || text.starts_with(b"[");
    is_json && !text.starts_with(b"{\"decisions\":")
}

// Whether it begins as a whole bundle does.
fn is_whole(text: &[u8]) -> bool {
    text.starts_with(b"sgt 1\n{") || text.starts_with(b"sgt 2\n{")
}

// Whether it begins as a bundle does that has no line 2.
fn is_bare(text: &[u8]) -> bool {
    text.starts_with(b"sgt 1\nsite ") || text.starts_with(b"sgt 2\nsite ")
}

// What the text looks like, of which these are the first bytes and the last two.
fn look_of(command: CommandName, text: &[u8], last: (u8, u8)) -> Option<Look> {
    let is_certify = command == CommandName::Certify;
    let takes_logs = match command {
        CommandName::Certify | CommandName::Explain | CommandName::Draw => true,
        _ => false,
    };
    if text.starts_with(&[0x1f, 0x8b]) {
        return Some(Look::Compressed);
    }
    if text.starts_with(&[0xff, 0xfe]) || text.starts_with(&[0xfe, 0xff]) {
        return Some(Look::Wide);
    }
    match command {
        CommandName::Replay | CommandName::Run | CommandName::Check => return None,
        _ => {}
    }
    if is_events(text) {
        Some(Look::Events)
    } else if is_history(text) {
        Some(Look::History)
    } else if text.starts_with(b"no ") || text.starts_with(b"yes ") {
        Some(Look::Answer)
    } else if is_certify && is_whole(text) {
        Some(Look::Bundle)
    } else if !takes_logs && is_bare(text) {
        Some(Look::Logs)
    } else if last == (b'\n', b'\n') {
        Some(Look::BlankEnd)
    } else {
        None
    }
}

// The word of a command that reads a text.
fn word_of(command: CommandName) -> &'static str {
    match command {
        CommandName::Certify => "certify",
        CommandName::Explain => "explain",
        CommandName::Serial => "serial",
        CommandName::Draw => "draw",
        CommandName::Replay => "replay",
        CommandName::Run => "run",
        CommandName::Check => "check",
        _ => "audit",
    }
}

// Tells what the text under this name looks like, and what to type.
fn tell_look<S: Streams, H>(host: &Host<'_, S, H>, name: &str, look: Look) {
    let streams = host.streams;
    let command = word_of(host.command);
    let (title, file, gap) = if name == "-" {
        ("standard input", ShellWord { name: "" }, "")
    } else {
        (name, ShellWord { name }, " ")
    };
    let title = LineName { name: title };
    let _ = match look {
        Look::Compressed => {
            eprintln!(streams; "sgt: {title} is compressed: gunzip -c{gap}{file} | sgt {command}")
        }
        Look::Wide => eprintln!(streams;
            "sgt: {title} is UTF-16: iconv -f UTF-16 -t UTF-8{gap}{file} | sgt {command}"
        ),
        Look::History => eprintln!(streams;
            "sgt: {title} looks like a history: sgt check{gap}{file}"
        ),
        Look::Events => eprintln!(streams;
            "sgt: {title} looks like events of sites: examples/export/export.py makes logs of them"
        ),
        Look::Answer => eprintln!(streams;
            "sgt: {title} looks like an answer: give sgt {command} what it answers"
        ),
        Look::Bundle => eprintln!(streams; "sgt: {title} has a certificate: sgt audit{gap}{file}"),
        Look::Logs => eprintln!(streams; "sgt: {title} has no certificate: sgt certify{gap}{file}"),
        Look::BlankEnd => eprintln!(streams;
            "sgt: {title} ends with a blank line: sed '$d'{gap}{file} | sgt {command}"
        ),
    };
}

// The last word of the first line, where that is a no and stands here whole.
fn reason_of(answer: &[u8]) -> Option<&str> {
    if !answer.starts_with(b"no ") {
        return None;
    }
    let end = answer.iter().position(|byte| *byte == b'\n')?;
    let line = str::from_utf8(answer.get(..end)?).ok()?;
    line.rsplit(' ').next()
}

// Tells what to type to learn more of a no for this reason.
fn tell_reason<S: Streams, H>(host: &Host<'_, S, H>, name: &str, reason: &str) {
    let streams = host.streams;
    let (place, file) = (if names_rule(name) { "./" } else { "" }, ShellWord { name });
    let is_explained = match host.command {
        CommandName::Audit | CommandName::Serial | CommandName::Draw => reason != "C1",
        CommandName::Certify => true,
        _ => false,
    };
    let _ = match reason {
        _ if is_explained && name != "-" => {
            eprintln!(streams; "sgt: to learn more: sgt explain {place}{file}")
        }
        "order" | "ranks" | "walk" => {
            eprintln!(streams; "sgt: to learn more: sgt explain no-{reason}")
        }
        _ => eprintln!(streams; "sgt: to learn more: sgt explain {reason}"),
    };
}

// The name behind the mark of a refusal.
fn name_behind(line: &[u8]) -> Option<&str> {
    str::from_utf8(line.strip_prefix(b"! ")?).ok()
}

// Tells what to type to learn more of a run that was a no.
fn tell_run<S: Streams, H>(host: &Host<'_, S, H>, answer: &[u8]) {
    let streams = host.streams;
    let fault = match answer.split(|byte| *byte == b'\n').next() {
        Some(line) => name_behind(line),
        None => None,
    };
    let _ = match fault {
        Some(fault) => eprintln!(streams; "sgt: to learn more: sgt explain {fault}"),
        None => eprintln!(streams;
            "sgt: to learn more: sgt run --bundle FILE, and then sgt explain FILE"
        ),
    };
}

// Whether a text that looks so is the reason of this answer.
fn is_cause(look: Look, command: CommandName, reason: Option<&str>) -> bool {
    match look {
        Look::BlankEnd => {
            let fault = reason.unwrap_or("");
            let is_left = fault == "F2" || fault == "F18";
            fault == "F19" || (is_left && command == CommandName::Certify)
        }
        _ => true,
    }
}

// Tells what the text looks like, if that is why the answer is a no.
fn tells_look<S: Streams, H, R: Read>(
    host: &Host<'_, S, H>,
    steady: &Steady<'_, S, R>,
    name: &str,
    answer: &[u8],
) -> bool {
    let text = steady.front();
    match look_of(host.command, text.bytes(), text.last()) {
        Some(look)
            if is_cause(look, host.command, reason_of(answer))
                && (host.tells_why || is_always_told(look, answer)) => {
            tell_look(host, name, look);
            true
        }
        _ => false,
    }
}

// Whether the look is told also where nobody asks for more: that of a text which is of another kind, where the answer
// is that its first line is none of a bundle.
fn is_always_told(look: Look, answer: &[u8]) -> bool {
    match look {
        Look::History | Look::Events => answer.starts_with(b"no line 1 F1"),
        _ => false,
    }
}

/// Tells standard error what was read under this name, where it looks like a text of another kind, and what to type to
/// learn more of it, where that is asked for; the answer, of which this is the front, is a no.
pub(crate) fn tell_why<S: Streams, H, R: Read>(
    host: &Host<'_, S, H>,
    steady: &Steady<'_, S, R>,
    name: &str,
    answer: &[u8],
    status: u8,
) {
    let is_told = status == 1 || (status == 2 && answer.starts_with(UNREADABLE));
    if !is_told || tells_look(host, steady, name, answer) || !host.tells_why || status == 2 {
        return;
    }
    match host.command {
        CommandName::Explain | CommandName::Serve => {}
        CommandName::Replay => {
            let _ = eprintln!(host.streams; "sgt: to learn more: sgt explain E8");
        }
        CommandName::Run => tell_run(host, answer),
        _ => {
            if let Some(reason) = reason_of(answer) {
                tell_reason(host, name, reason);
            }
        }
    }
}

/// The same of a strict replay of which these are the replies.
pub(crate) fn tell_refusal<S: Streams, H>(host: &Host<'_, S, H>, replies: &[u8]) {
    for line in replies.split(|byte| *byte == b'\n') {
        if !line.starts_with(b"! E") {
            continue;
        }
        if let Some(name) = name_behind(line) {
            let _ = eprintln!(host.streams; "sgt: to learn more: sgt explain {name}");
        }
        return;
    }
}
