//! The program's words.

/// What the command line asks for.
#[derive(Clone, Copy)]
pub struct Words<'a> {
    /// The path of the image.
    pub image: &'a str,
    /// The path of the script.
    pub script: &'a str,
    /// The moment of every change, in seconds since midnight, 1 January 1904.
    pub now: u32,
}

/// What the command line, whose first word is the program's name, asks for. None if it isn't right.
pub fn words_of(words: &[String]) -> Option<Words<'_>> {
    match words {
        [_program, image, script] => Some(Words {
            image: image.as_str(),
            script: script.as_str(),
            now: 0,
        }),
        [_program, image, script, option, now] => timed(image, script, option, now),
        _ => None,
    }
}

/// What the command line asks for if it has a moment.
fn timed<'a>(image: &'a str, script: &'a str, option: &str, now: &str) -> Option<Words<'a>> {
    if option != "--now" {
        return None;
    }
    match now.parse::<u32>() {
        Ok(now) => Some(Words { image, script, now }),
        Err(_) => None,
    }
}
