ghost use Rattle.std.specs.Prelude.{◌≡◌};
ghost use Rattle.cal_ql.specs.Signs.{sign_text};
ghost use Rattle.cal_ql.specs.Names.{keyword_name};

/// The signs of CalQL.
#[derive(Clone, Copy, Debug)]
pub enum Sign {
    Comma,
    Open,
    Close,
    Star,
    Equals,
    Less,
    Greater,
    LessEqual,
    GreaterEqual,
}

/// The words that are no names, in any case.
#[derive(Clone, Copy, Debug)]
pub enum Keyword {
    Let,
    Select,
    Aggregate,
    Where,
    Group,
    Order,
    By,
    Format,
    As,
    Not,
    Asc,
    Desc,
}

/// A token of a text. A quoted text stands as it is spelled between its quotes.
#[derive(Clone, Copy, Debug)]
pub(crate) enum Token<'a> {
    Key(Keyword),
    Word(&'a str),
    Quoted(&'a str),
    Sign(Sign),
}

impl Sign {
    pub(crate) fn text(self) -> &'static str
        ensures { result.now ≡ sign_text self }
    {
        match self {
            Sign::Comma => ",",
            Sign::Open => "(",
            Sign::Close => ")",
            Sign::Star => "*",
            Sign::Equals => "=",
            Sign::Less => "<",
            Sign::Greater => ">",
            Sign::LessEqual => "<=",
            Sign::GreaterEqual => ">=",
        }
    }
}

impl Keyword {
    pub(crate) fn name(self) -> &'static str
        ensures { result.now ≡ keyword_name self }
    {
        match self {
            Keyword::Let => "let",
            Keyword::Select => "select",
            Keyword::Aggregate => "aggregate",
            Keyword::Where => "where",
            Keyword::Group => "group",
            Keyword::Order => "order",
            Keyword::By => "by",
            Keyword::Format => "format",
            Keyword::As => "as",
            Keyword::Not => "not",
            Keyword::Asc => "asc",
            Keyword::Desc => "desc",
        }
    }
}
