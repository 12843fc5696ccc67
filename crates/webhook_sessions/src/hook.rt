use crate::session::Session;
use act_sessions::{Answer, SessionFault, Transcript, Work};
use std::alloc::Global;
use std::io::{Read, Write};

/// An HTTP/1.1 session still to be run, over a reader and a writer.
#[derive(Drop)]
pub struct Hook<R, W> {
    pub reader: R,
    pub writer: W,
}

impl<R: Read + Drop, W: Write + Drop> Work for Hook<R, W> {
    ghost use Rattle.act_sessions.specs.Ends.{Ends};
    ghost use Rattle.webhook_sessions.specs.Hooks.{hooks};

    ghost ends = { λ hook t. Ends hooks (R.remaining hook.reader) t };

    fn work<A: Answer>(self, alloc: Global, answerer: &mut A) -> Result<Transcript, SessionFault> {
        let Hook { reader, writer } = self;
        let mut reader = reader;
        let mut writer = writer;
        Session::run(alloc, &mut reader, &mut writer, answerer)
    }
}
