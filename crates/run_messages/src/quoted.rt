use std::fmt;

/// How many bytes of what was found are shown.
const MOST_SHOWN_BYTES: usize = 40;

/// What was found in a text or an argument, in quotes: without codes that steer a terminal, and cut after 40 bytes.
#[derive(Clone, Copy)]
pub(crate) struct Quoted<'a>(pub &'a [u8]);

impl<'a> fmt::Display for Quoted<'a> {
    fn fmt<W: fmt::Write>(&self, f: &mut fmt::Formatter<W>) -> fmt::Result {
        let bytes = self.0;
        f.write_str("\"")?;
        write_shown(f, shown_part(bytes))?;
        f.write_str(if bytes.len() > MOST_SHOWN_BYTES {
            "\"..."
        } else {
            "\""
        })
    }
}

/// The name of a file, whole, without codes that steer a terminal.
#[derive(Clone, Copy)]
pub(crate) struct FileName<'a>(pub &'a str);

impl<'a> fmt::Display for FileName<'a> {
    fn fmt<W: fmt::Write>(&self, f: &mut fmt::Formatter<W>) -> fmt::Result {
        write_text(f, self.0)
    }
}

/// The bytes that are shown, up to the last whole letter.
fn shown_part(bytes: &[u8]) -> &[u8] {
    let Some((front, rest)) = bytes.split_at_checked(MOST_SHOWN_BYTES) else {
        return bytes
    };
    if !rest.first().is_some_and(|byte| goes_on(*byte)) {
        return front;
    }
    let cut = front
        .iter()
        .rev()
        .take_while(|byte| goes_on(**byte))
        .count();
    front
        .split_at(front.len().saturating_sub(cut.saturating_add(1)))
        .0
}

/// Whether a byte goes on with a letter of several bytes.
fn goes_on(byte: u8) -> bool {
    byte & 0xC0 == 0x80
}

fn write_shown<W: fmt::Write>(f: &mut fmt::Formatter<W>, bytes: &[u8]) -> fmt::Result {
    match str::from_utf8(bytes) {
        Ok(text) => write_text(f, text),
        Err(_) => write_bytes(f, bytes),
    }
}

fn write_text<W: fmt::Write>(f: &mut fmt::Formatter<W>, text: &str) -> fmt::Result {
    for letter in text.chars() {
        if steers(letter) {
            let code = u32::from(letter);
            write!(f, "\\u{{{code:x}}}")?;
        } else {
            f.write_char(letter)?;
        }
    }
    Ok(())
}

fn write_bytes<W: fmt::Write>(f: &mut fmt::Formatter<W>, bytes: &[u8]) -> fmt::Result {
    for byte in bytes {
        if byte.is_ascii_graphic() || *byte == b' ' {
            f.write_char(char::from(*byte))?;
        } else {
            write!(f, "\\x{byte:02X}")?;
        }
    }
    Ok(())
}

/// Whether a letter steers a terminal, or the direction in which it writes.
fn steers(letter: char) -> bool {
    matches!(letter, '\u{0}'..='\u{1F}' | '\u{7F}'..='\u{9F}' | '\u{202A}'..='\u{202E}' | '\u{2066}'..='\u{2069}')
}
