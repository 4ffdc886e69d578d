ghost use Rattle.std.specs.Prelude.{◌≡◌, ◌+◌, ◌-◌, ◌^◌, ◌<◌, ◌≤◌, IfSome};
ghost use Rattle.sql_tokens.specs.Script.{is_blank, is_blanks};
ghost use Rattle.sql_tokens.specs.Places.{after, between, depth_of, content_at, in_comment};

/// Where a byte stands in its text, as far as the bytes before it in the text tell. `blank` says that
/// before the part in which it stands the text has only blanks and ended comments.
#[derive(Clone, Copy, Debug)]
pub enum Place {
    /// Between two parts.
    Between { blank: bool },
    /// After a `-` that begins a line comment if another one follows.
    AfterMinus { blank: bool },
    /// After a `/` that begins a comment if a `*` follows.
    AfterSlash { blank: bool },
    /// In a string or a quoted identifier.
    Quoted { quote: u8 },
    LineComment { blank: bool },
    /// In `depth` nested comments.
    Comment { blank: bool, depth: usize },
    /// There, after a `*` that ends the innermost one if a `/` follows.
    CommentStar { blank: bool, depth: usize },
    /// There, after a `/` that begins another one if a `*` follows.
    CommentSlash { blank: bool, depth: usize },
    BackslashLine,
}

impl Place {
    /// The place before the first byte of a text.
    pub const START: Place = Place::Between { blank: true };

    /// The place after `byte`, or `None` where the byte is a cut.
    pub fn after(self, byte: u8) -> Option<Place>
        requires { depth_of self < 2 ^ 64 - 1 }
        ensures after { result ≡ after self byte }
        ensures depth { IfSome result (λ next. depth_of next ≤ depth_of self + 1) }
    {
        match self {
            Place::Between { blank } => between(blank, byte),
            Place::AfterMinus { blank } => match byte {
                b'-' => Some(Place::LineComment { blank }),
                _ => between(false, byte),
            },
            Place::AfterSlash { blank } => match byte {
                b'*' => Some(Place::Comment { blank, depth: 1 }),
                _ => between(false, byte),
            },
            Place::Quoted { quote } if byte == quote => Some(Place::Between { blank: false }),
            Place::LineComment { blank } if byte == b'\n' => Some(Place::Between { blank }),
            Place::Quoted { .. } | Place::LineComment { .. } => Some(self),
            Place::Comment { blank, depth } => Some(in_comment(blank, depth, byte)),
            Place::CommentStar { blank, depth } => match byte {
                b'/' if depth > 1 => Some(Place::Comment {
                    blank,
                    depth: depth - 1,
                }),
                b'/' => Some(Place::Between { blank }),
                _ => Some(in_comment(blank, depth, byte)),
            },
            Place::CommentSlash { blank, depth } => match byte {
                b'*' => Some(Place::Comment {
                    blank,
                    depth: depth + 1,
                }),
                _ => Some(in_comment(blank, depth, byte)),
            },
            Place::BackslashLine if byte == b'\n' => None,
            Place::BackslashLine => Some(self),
        }
    }

    /// Whether a text that ends here has blanks and ended comments alone.
    pub fn ends_blank(self) -> bool
        ensures { result ≡ is_blanks (content_at self) }
    {
        match self {
            Place::Between { blank } | Place::LineComment { blank } => blank,
            _ => false,
        }
    }
}

fn between(blank: bool, byte: u8) -> Option<Place>
    ensures after { result ≡ between blank byte }
    ensures depth { IfSome result (λ next. depth_of next ≡ 0) }
{
    match byte {
        b'\'' | b'"' => Some(Place::Quoted { quote: byte }),
        b'-' => Some(Place::AfterMinus { blank }),
        b'/' => Some(Place::AfterSlash { blank }),
        b'\\' if blank => Some(Place::BackslashLine),
        b';' => None,
        _ => Some(Place::Between {
            blank: blank && is_blank(byte),
        }),
    }
}

fn in_comment(blank: bool, depth: usize, byte: u8) -> Place
    ensures { result ≡ in_comment blank depth byte }
{
    match byte {
        b'*' => Place::CommentStar { blank, depth },
        b'/' => Place::CommentSlash { blank, depth },
        _ => Place::Comment { blank, depth },
    }
}

/// Space, tab, line feed, form feed or carriage return.
fn is_blank(byte: u8) -> bool
    ensures { result ≡ is_blank byte }
{
    byte == b' ' || byte == b'\t' || byte == b'\n' || byte == 12 || byte == b'\r'
}
