//! What an input holds after its first line, as far as its bytes tell.

/// How many whole texts there are, and whether another one has begun.
#[derive(Clone, Copy, Debug, PartialEq, Eq)]
pub struct Texts {
    pub whole: u64,
    pub begun: bool,
}

// Where a byte stands.
#[derive(Clone, Copy, Debug, PartialEq, Eq)]
enum Place {
    FirstLine,
    Text,
    // After one `-`, which begins a comment with another one.
    Dash,
    Comment,
    Quotes,
}

/// The texts of so many first bytes of an input. One of nothing except comments is none.
pub fn texts_in(input: &[u8], size: usize) -> Texts {
    let mut place = Place::FirstLine;
    let mut texts = Texts {
        whole: 0,
        begun: false,
    };
    for b in input.iter().take(size) {
        let next = behind(place, *b);
        if next == Place::Dash || next == Place::Comment {
            place = next;
            continue;
        }
        texts = taken(texts, place, *b);
        place = next;
    }
    Texts {
        whole: texts.whole,
        begun: texts.begun || place == Place::Dash,
    }
}

// Where the next byte stands.
fn behind(place: Place, b: u8) -> Place {
    match (place, b) {
        (Place::FirstLine | Place::Comment, b'\n') => Place::Text,
        (Place::FirstLine | Place::Comment, _) => place,
        (Place::Quotes, b'\'') => Place::Text,
        (Place::Quotes, _) => Place::Quotes,
        (Place::Dash, b'-') => Place::Comment,
        (Place::Text, b'-') => Place::Dash,
        (_, b'\'') => Place::Quotes,
        _ => Place::Text,
    }
}

// The texts with a byte more that is of no comment.
fn taken(texts: Texts, place: Place, b: u8) -> Texts {
    let is_blank = b == b' ' || b == b'\t' || b == b'\r' || b == b'\n';
    match place {
        Place::FirstLine | Place::Comment => texts,
        Place::Text | Place::Dash if b == b';' => Texts {
            whole: texts
                .whole
                .saturating_add(u64::from(texts.begun || place == Place::Dash)),
            begun: false,
        },
        _ => Texts {
            whole: texts.whole,
            begun: texts.begun || place == Place::Dash || !is_blank,
        },
    }
}
