//! The board that the view port shows.

ghost use Rattle.std.specs.Prelude.{◌≡◌, option_map};
ghost use Rattle.service_views.specs.Boards.{board_bytes};

use view_sessions::BoardFile;

/// The files of the board, as far as they are there.
#[derive(Drop)]
pub struct Board {
    pub page: Option<Vec<u8>>,
    pub script: Option<Vec<u8>>,
    pub style: Option<Vec<u8>>,
}

impl Board {
    /// No board.
    pub fn none() -> Board {
        Board {
            page: None,
            script: None,
            style: None,
        }
    }

    /// The bytes of a file of the board, if it is there.
    pub(crate) fn bytes(&self, file: BoardFile) -> Option<&[u8]>
        ensures { option_map (λ bytes. bytes.now) result ≡ board_bytes self.now file }
    {
        let bytes = match file {
            BoardFile::Page => &self.page,
            BoardFile::Script => &self.script,
            BoardFile::Style => &self.style,
        };
        match bytes {
            Some(bytes) => Some(bytes.as_slice()),
            None => None,
        }
    }
}
