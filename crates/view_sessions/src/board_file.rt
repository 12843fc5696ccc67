ghost use Rattle.std.specs.Prelude.{◌≡◌};
ghost use Rattle.view_sessions.specs.Answers.{board_kind};

/// A file of the board.
#[derive(Clone, Copy, PartialEq, Eq)]
pub enum BoardFile {
    Page,
    Script,
    Style,
}

impl BoardFile {
    pub(crate) fn kind(self) -> &'static str
        ensures { result.now ≡ board_kind self }
    {
        match self {
            BoardFile::Page => "text/html; charset=utf-8",
            BoardFile::Script => "text/javascript; charset=utf-8",
            BoardFile::Style => "text/css; charset=utf-8",
        }
    }
}
