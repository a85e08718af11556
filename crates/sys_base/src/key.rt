ghost use Rattle.std.specs.Prelude.{◌≡◌, IfSome, IfNone};
ghost use Rattle.sys_base.specs.Key.{key_text};

/// A keyword of the source language, in the order of `docs/language.md`, "Names and keywords".
#[derive(Clone, Copy, Debug, PartialEq, Eq)]
pub enum Key {
    Array,
    Queues,
    Link,
    Message,
    From,
    To,
    Route,
    Label,
    Cell,
    Var,
    Write,
    Read,
    Take,
    Emit,
    For,
    If,
    Else,
    Buffer,
}

impl Key {
    /// The keyword with this spelling; `None` exactly where the bytes spell none.
    pub fn from_word(word: &[u8]) -> Option<Key>
        ensures spelt { IfSome result (λ key. word.now ≡ key_text key) }
        ensures none { IfNone result ((key : Key) → word.now ≡ key_text key → ⊥) }
    {
        match word {
            b"array" => Some(Key::Array),
            b"queues" => Some(Key::Queues),
            b"link" => Some(Key::Link),
            b"message" => Some(Key::Message),
            b"from" => Some(Key::From),
            b"to" => Some(Key::To),
            b"route" => Some(Key::Route),
            b"label" => Some(Key::Label),
            b"cell" => Some(Key::Cell),
            b"var" => Some(Key::Var),
            b"write" => Some(Key::Write),
            b"read" => Some(Key::Read),
            b"take" => Some(Key::Take),
            b"emit" => Some(Key::Emit),
            b"for" => Some(Key::For),
            b"if" => Some(Key::If),
            b"else" => Some(Key::Else),
            b"buffer" => Some(Key::Buffer),
            _ => None,
        }
    }

    /// How the keyword is spelt.
    pub fn text(self) -> &'static str
        ensures { result.now ≡ key_text self }
    {
        match self {
            Key::Array => "array",
            Key::Queues => "queues",
            Key::Link => "link",
            Key::Message => "message",
            Key::From => "from",
            Key::To => "to",
            Key::Route => "route",
            Key::Label => "label",
            Key::Cell => "cell",
            Key::Var => "var",
            Key::Write => "write",
            Key::Read => "read",
            Key::Take => "take",
            Key::Emit => "emit",
            Key::For => "for",
            Key::If => "if",
            Key::Else => "else",
            Key::Buffer => "buffer",
        }
    }
}
